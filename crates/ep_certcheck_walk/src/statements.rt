//! The walk through statements.

ghost use Rattle.std.specs.Prelude.{◌-◌, false, true, map};
ghost use Rattle.std.specs.Option.{option_map};
ghost use Rattle.ep_core.specs.Program.{call, by_order};
ghost use Rattle.ep_core.specs.View.{dest_view, expr_view, stmts_view, what_view};
ghost use Rattle.ep_flows.specs.declared.setting.Running.TheVariants.{Together};
ghost use Rattle.ep_flows.specs.View.{mode_of, plan_of, flow_view, ways_view, side_of};
ghost use Rattle.ep_flows.specs.Typed.{IsTypedTest};
ghost use Rattle.ep_pass.specs.Pass.{branch};
ghost use Rattle.ep_walk_parts.specs.Pieces.{followed_of, loop_of};
ghost use Rattle.ep_walk_parts.specs.Typed.{AreTyped, FollowIsTyped, IsTyped, LoopIsTyped};
ghost use Rattle.ep_certcheck_walk.specs.Leaving.{way_of_leaving};
ghost use Rattle.ep_certcheck_walk.specs.Pieces.{alone_of, begun_of, entered_of, followed, follows, four_of, function};
ghost use Rattle.ep_certcheck_walk.specs.Pieces.{last_of, loop_pass_of, one, parted_arms, right_from, rounds_of, row};
ghost use Rattle.ep_certcheck_walk.specs.Pieces.{settled_last, tested_of, turn_of, turned, two_of};
ghost use Rattle.ep_certcheck_walk.specs.Stops.{Finds, course};

use crate::given::{next_head, stay_reached, stay_within};
use crate::parts::{
    Leaving, come_after, enter_call, give_result, keep, pass_simple, reach, truths_of,
};
use crate::states::CheckedStates;
use crate::stop::Stop;
use ep_alarms::AlarmKind;
use ep_core::tree::{Dest, Expr, Stmt, What};
use ep_flows::flow::{Flow, Ways, either, end_loop, join_all, join_reached, leave_scope};
use ep_flows::setting::{Machine, Running, Setting, Truths};
use ep_int::Order;
use ep_walk_parts::follow::{Follow, Parts, arm, callee, function_at, leave_function, order_of};

#[cycle(walk)]
fn pass_stmt<K: CheckedStates>(
    c: &Setting<'_>,
    here: u32,
    mode: Running,
    s: &Stmt,
    known: K,
    heads: &[K],
    taken: &mut usize,
) -> Result<Flow<K>, Stop>
    requires { IsTyped (plan_of c.now).program here (what_view s.now.what) }
    ensures { Finds (course K.ops K.first_outside (plan_of c.now) heads.now)
        (one (course K.ops K.first_outside (plan_of c.now) heads.now) here (what_view s.now.what) taken.old
        (mode_of mode) s.now.line known)
        result taken.old taken.new }
{
    match &s.what {
        What::Nothing
        | What::Eval(_)
        | What::Assign(_, _, _)
        | What::Clear(_, _)
        | What::CopyAggregate(_, _, _)
        | What::CopyBytes(_, _, _)
        | What::Fill(_, _, _)
        | What::Input(_, _)
        | What::Output(_, _)
        | What::ReadBytes(_, _)
        | What::WriteBytes(_, _)
        | What::Return(_) => pass_simple(c, here, mode, s, known),
        What::Call(k, es, d) => pass_call(c, here, mode, *k, es, d, s.line, known, heads, taken),
        What::If(test, yes, no) => {
            let follow = Follow::Arms(s.line, yes, no);
            let ways = Ways::none();
            pass_test(
                c, here, mode, follow, s.line, test, ways, known, heads, taken,
            )
        }
        What::Loop(tests_first, test, body, next) => {
            let parts = Parts {
                line: s.line,
                test,
                body,
                next,
            };
            pass_loop(c, here, mode, parts, *tests_first, known, heads, taken)
        }
        What::Break => Ok(Flow::broken(Some(known))),
        What::Continue => Ok(Flow::continued(Some(known))),
        What::ByOrder(named, yes, no) => {
            pass_order(c, here, mode, *named, s.line, yes, no, known, heads, taken)
        }
        What::Scope(blocks, body) => {
            let inner = known.enter(c, mode, blocks)?;
            let flow = pass_list(c, here, mode, body, inner, heads, taken)?;
            let left = leave_scope(c, mode, blocks, flow)?;
            Ok(left)
        }
    }
}

// One statement after the other.
#[cycle(walk)]
fn pass_list<K: CheckedStates>(
    c: &Setting<'_>,
    here: u32,
    mode: Running,
    body: &[Stmt],
    known: K,
    heads: &[K],
    taken: &mut usize,
) -> Result<Flow<K>, Stop>
    requires { AreTyped (plan_of c.now).program here (stmts_view body.now) }
    ensures { Finds (course K.ops K.first_outside (plan_of c.now) heads.now)
        (row (course K.ops K.first_outside (plan_of c.now) heads.now) here (stmts_view body.now) taken.old
        (mode_of mode) known)
        result taken.old taken.new }
{
    let mut at = known;
    let mut ways = Ways::none();
    for s in body {
        let Flow { on, ways: more } = pass_stmt(c, here, mode, s, at, heads, taken)?;
        ways = join_all(c, ways, more)?;
        match on {
            None => return Ok(Flow { on: None, ways }),
            Some(next) => at = next,
        }
    }
    Ok(Flow { on: Some(at), ways })
}

// The statements, where a state is reached.
#[cycle(walk)]
fn pass_branch<K: CheckedStates>(
    c: &Setting<'_>,
    here: u32,
    mode: Running,
    body: &[Stmt],
    known: Option<K>,
    heads: &[K],
    taken: &mut usize,
) -> Result<Flow<K>, Stop>
    requires { AreTyped (plan_of c.now).program here (stmts_view body.now) }
    ensures { Finds (course K.ops K.first_outside (plan_of c.now) heads.now)
        (branch known (row (course K.ops K.first_outside (plan_of c.now) heads.now) here
        (stmts_view body.now) taken.old (mode_of mode)))
        result taken.old taken.new }
{
    match known {
        None => Ok(Flow::none()),
        Some(known) => pass_list(c, here, mode, body, known, heads, taken),
    }
}

/// Goes through the body of the function of this number, and all that it calls, from a state where one is reached;
/// where there is no such function, the state stays.
#[cycle(walk)]
pub fn pass_function<K: CheckedStates>(
    c: &Setting<'_>,
    k: u32,
    mode: Running,
    known: Option<K>,
    heads: &[K],
    taken: &mut usize,
) -> Result<Flow<K>, Stop>
    ensures { Finds (course K.ops K.first_outside (plan_of c.now) heads.now)
        (branch known (function (course K.ops K.first_outside (plan_of c.now) heads.now) k taken.old (mode_of mode)))
        result taken.old taken.new }
{
    match known {
        None => Ok(Flow::none()),
        Some(known) => match function_at(c, k) {
            None => Ok(Flow::on(Some(known))),
            Some(f) => pass_list(c, k, mode, &f.body, known, heads, taken),
        },
    }
}

#[cycle(walk)]
fn pass_call<K: CheckedStates>(
    c: &Setting<'_>,
    here: u32,
    mode: Running,
    k: u32,
    es: &[Expr],
    d: &Option<Dest>,
    line: u32,
    known: K,
    heads: &[K],
    taken: &mut usize,
) -> Result<Flow<K>, Stop>
    requires { IsTyped (plan_of c.now).program here (call k (map expr_view es.now) (option_map dest_view d.now)) }
    ensures { Finds (course K.ops K.first_outside (plan_of c.now) heads.now)
        (one (course K.ops K.first_outside (plan_of c.now) heads.now) here
        (call k (map expr_view es.now) (option_map dest_view d.now)) taken.old (mode_of mode) line known)
        result taken.old taken.new }
{
    match callee(c, here, k) {
        None => Ok(Flow::none()),
        Some(f) => {
            let inner = enter_call(c, mode, f, es, line, known)?;
            let flow = pass_function(c, k, mode, inner, heads, taken)?;
            let left = leave_function(c, mode, f, flow)?;
            give_result(c, mode, f, d, line, left)
        }
    }
}

// Arms by byte order.
#[cycle(walk)]
fn pass_order<K: CheckedStates>(
    c: &Setting<'_>,
    here: u32,
    mode: Running,
    named: Order,
    line: u32,
    yes: &[Stmt],
    no: &[Stmt],
    known: K,
    heads: &[K],
    taken: &mut usize,
) -> Result<Flow<K>, Stop>
    requires first { AreTyped (plan_of c.now).program here (stmts_view yes.now) }
    requires second { AreTyped (plan_of c.now).program here (stmts_view no.now) }
    ensures { Finds (course K.ops K.first_outside (plan_of c.now) heads.now)
        (one (course K.ops K.first_outside (plan_of c.now) heads.now) here
        (by_order named (stmts_view yes.now) (stmts_view no.now)) taken.old (mode_of mode) line known)
        result taken.old taken.new }
{
    match mode {
        Running::Together => {
            let on_left = arm(c.left, named, yes, no);
            let on_right = arm(c.right, named, yes, no);
            pass_apart(c, here, line, on_left, on_right, known, heads, taken)
        }
        Running::Alone(machine) => {
            let own = arm(order_of(c, machine), named, yes, no);
            pass_list(c, here, mode, own, known, heads, taken)
        }
    }
}

// The left side goes through the first statements, to their end, then the right side through the second from each way
// out.
#[cycle(walk)]
fn pass_apart<K: CheckedStates>(
    c: &Setting<'_>,
    here: u32,
    line: u32,
    first: &[Stmt],
    second: &[Stmt],
    known: K,
    heads: &[K],
    taken: &mut usize,
) -> Result<Flow<K>, Stop>
    requires first { AreTyped (plan_of c.now).program here (stmts_view first.now) }
    requires second { AreTyped (plan_of c.now).program here (stmts_view second.now) }
    ensures { Finds (course K.ops K.first_outside (plan_of c.now) heads.now)
        (parted_arms (course K.ops K.first_outside (plan_of c.now) heads.now) here line (stmts_view first.now)
        (stmts_view second.now) known)
        result taken.old taken.new }
{
    let left = Running::Alone(Machine::Left);
    let Flow { on, ways } = pass_list(c, here, left, first, known, heads, taken)?;
    let Ways {
        broken,
        continued,
        returned,
    } = ways;
    let flow = Flow::none();
    let flow = pass_right(c, here, line, second, Leaving::On, on, flow, heads, taken)?;
    let flow = pass_right(
        c,
        here,
        line,
        second,
        Leaving::Broken,
        broken,
        flow,
        heads,
        taken,
    )?;
    let flow = pass_right(
        c,
        here,
        line,
        second,
        Leaving::Continued,
        continued,
        flow,
        heads,
        taken,
    )?;
    pass_right(
        c,
        here,
        line,
        second,
        Leaving::Returned,
        returned,
        flow,
        heads,
        taken,
    )
}

// The right side, from one way out of the left's.
#[cycle(walk)]
fn pass_right<K: CheckedStates>(
    c: &Setting<'_>,
    here: u32,
    line: u32,
    second: &[Stmt],
    by: Leaving,
    known: Option<K>,
    before: Flow<K>,
    heads: &[K],
    taken: &mut usize,
) -> Result<Flow<K>, Stop>
    requires { AreTyped (plan_of c.now).program here (stmts_view second.now) }
    ensures { Finds (course K.ops K.first_outside (plan_of c.now) heads.now)
        (right_from (course K.ops K.first_outside (plan_of c.now) heads.now) here (stmts_view second.now)
        (way_of_leaving by) line known (flow_view before))
        result taken.old taken.new }
{
    let right = Running::Alone(Machine::Right);
    let flow = pass_branch(c, here, right, second, known, heads, taken)?;
    let flow = keep(by, line, flow)?;
    let whole = either(c, before, flow)?;
    Ok(whole)
}

// A test and what follows for each pair of truths, joined to the ways out so far.
#[cycle(walk)]
fn pass_test<K: CheckedStates>(
    c: &Setting<'_>,
    here: u32,
    mode: Running,
    follow: Follow<'_>,
    line: u32,
    test: &Expr,
    before: Ways<K>,
    known: K,
    heads: &[K],
    taken: &mut usize,
) -> Result<Flow<K>, Stop>
    requires test { IsTypedTest (plan_of c.now).program (expr_view test.now) }
    requires parts { FollowIsTyped (plan_of c.now).program here (followed_of follow) }
    ensures { Finds (course K.ops K.first_outside (plan_of c.now) heads.now)
        (tested_of (course K.ops K.first_outside (plan_of c.now) heads.now) here (followed_of follow.entry) taken.old
        (mode_of mode) (expr_view test.now) line (ways_view before) known)
        result taken.old taken.new }
{
    let truths = truths_of(c, mode, test, line, &known)?;
    let flow = Flow {
        on: None,
        ways: before,
    };
    match truths {
        Truths::Stuck => Ok(flow),
        Truths::Same => pass_two(c, here, mode, follow, test, flow, known, heads, taken),
        Truths::Differs => match mode {
            Running::Together => pass_four(c, here, follow, test, flow, known, heads, taken),
            Running::Alone(_) => pass_two(c, here, mode, follow, test, flow, known, heads, taken),
        },
    }
}

// Both truths, or one.
#[cycle(walk)]
fn pass_two<K: CheckedStates>(
    c: &Setting<'_>,
    here: u32,
    mode: Running,
    follow: Follow<'_>,
    test: &Expr,
    before: Flow<K>,
    known: K,
    heads: &[K],
    taken: &mut usize,
) -> Result<Flow<K>, Stop>
    requires test { IsTypedTest (plan_of c.now).program (expr_view test.now) }
    requires parts { FollowIsTyped (plan_of c.now).program here (followed_of follow) }
    ensures { Finds (course K.ops K.first_outside (plan_of c.now) heads.now)
        (two_of (course K.ops K.first_outside (plan_of c.now) heads.now) here (followed_of follow.entry) taken.old
        (mode_of mode) (expr_view test.now) known (flow_view before))
        result taken.old taken.new }
{
    let flow = follow_truths(
        c, here, mode, follow, test, true, true, before, &known, heads, taken,
    )?;
    follow_truths(
        c, here, mode, follow, test, false, false, flow, &known, heads, taken,
    )
}

// Maybe different truths, the left's first.
#[cycle(walk)]
fn pass_four<K: CheckedStates>(
    c: &Setting<'_>,
    here: u32,
    follow: Follow<'_>,
    test: &Expr,
    before: Flow<K>,
    known: K,
    heads: &[K],
    taken: &mut usize,
) -> Result<Flow<K>, Stop>
    requires test { IsTypedTest (plan_of c.now).program (expr_view test.now) }
    requires parts { FollowIsTyped (plan_of c.now).program here (followed_of follow) }
    ensures { Finds (course K.ops K.first_outside (plan_of c.now) heads.now)
        (four_of (course K.ops K.first_outside (plan_of c.now) heads.now) here (followed_of follow.entry) taken.old
        (expr_view test.now) known (flow_view before))
        result taken.old taken.new }
{
    let mode = Running::Together;
    let flow = follow_truths(
        c, here, mode, follow, test, true, true, before, &known, heads, taken,
    )?;
    let flow = follow_truths(
        c, here, mode, follow, test, true, false, flow, &known, heads, taken,
    )?;
    let flow = follow_truths(
        c, here, mode, follow, test, false, true, flow, &known, heads, taken,
    )?;
    follow_truths(
        c, here, mode, follow, test, false, false, flow, &known, heads, taken,
    )
}

// What follows these truths, where a state is reached, joined to what came before.
#[cycle(walk)]
fn follow_truths<K: CheckedStates>(
    c: &Setting<'_>,
    here: u32,
    mode: Running,
    follow: Follow<'_>,
    test: &Expr,
    on_left: bool,
    on_right: bool,
    before: Flow<K>,
    known: &K,
    heads: &[K],
    taken: &mut usize,
) -> Result<Flow<K>, Stop>
    requires test { IsTypedTest (plan_of c.now).program (expr_view test.now) }
    requires parts { FollowIsTyped (plan_of c.now).program here (followed_of follow) }
    ensures { Finds (course K.ops K.first_outside (plan_of c.now) heads.now)
        (follows (course K.ops K.first_outside (plan_of c.now) heads.now) here (followed_of follow.entry) taken.old
        (mode_of mode) (expr_view test.now) on_left on_right known.now (flow_view before))
        result taken.old taken.new }
{
    let at = reach(c, mode, test, on_left, on_right, known)?;
    let next = follow_reached(c, here, mode, follow, on_left, on_right, at, heads, taken)?;
    let whole = either(c, before, next)?;
    Ok(whole)
}

// What follows these truths, where a state is reached.
#[cycle(walk)]
fn follow_reached<K: CheckedStates>(
    c: &Setting<'_>,
    here: u32,
    mode: Running,
    follow: Follow<'_>,
    on_left: bool,
    on_right: bool,
    known: Option<K>,
    heads: &[K],
    taken: &mut usize,
) -> Result<Flow<K>, Stop>
    requires { FollowIsTyped (plan_of c.now).program here (followed_of follow) }
    ensures { Finds (course K.ops K.first_outside (plan_of c.now) heads.now)
        (branch known (followed (course K.ops K.first_outside (plan_of c.now) heads.now) here
        (followed_of follow.entry) taken.old (mode_of mode) on_left on_right))
        result taken.old taken.new }
{
    match known {
        None => Ok(Flow::none()),
        Some(known) => follow_one(
            c, here, mode, follow, on_left, on_right, known, heads, taken,
        ),
    }
}

#[cycle(walk)]
fn follow_one<K: CheckedStates>(
    c: &Setting<'_>,
    here: u32,
    mode: Running,
    follow: Follow<'_>,
    on_left: bool,
    on_right: bool,
    known: K,
    heads: &[K],
    taken: &mut usize,
) -> Result<Flow<K>, Stop>
    requires { FollowIsTyped (plan_of c.now).program here (followed_of follow) }
    ensures { Finds (course K.ops K.first_outside (plan_of c.now) heads.now)
        (followed (course K.ops K.first_outside (plan_of c.now) heads.now) here (followed_of follow.entry) taken.old
        (mode_of mode) on_left on_right known)
        result taken.old taken.new }
{
    match follow {
        Follow::Arms(line, yes, no) => match (on_left, on_right) {
            (true, true) => pass_list(c, here, mode, yes, known, heads, taken),
            (true, false) => pass_apart(c, here, line, yes, no, known, heads, taken),
            (false, true) => pass_apart(c, here, line, no, yes, known, heads, taken),
            (false, false) => pass_list(c, here, mode, no, known, heads, taken),
        },
        Follow::Turn(parts) => match (on_left, on_right) {
            (true, true) => pass_body(c, here, mode, parts, known, heads, taken),
            (true, false) => pass_lone(c, here, mode, parts, Machine::Left, known, heads, taken),
            (false, true) => pass_lone(c, here, mode, parts, Machine::Right, known, heads, taken),
            (false, false) => Ok(Flow::broken(Some(known))),
        },
        Follow::Cut(line) => match (on_left, on_right) {
            (true, true) => Err(Stop::Fault(line, AlarmKind::E4)),
            (true, false) => Ok(Flow::none()),
            (false, true) => Ok(Flow::none()),
            (false, false) => Ok(Flow::broken(Some(known))),
        },
    }
}

// The body of a loop, and its step part, once.
#[cycle(walk)]
fn pass_body<K: CheckedStates>(
    c: &Setting<'_>,
    here: u32,
    mode: Running,
    parts: Parts<'_>,
    known: K,
    heads: &[K],
    taken: &mut usize,
) -> Result<Flow<K>, Stop>
    requires { LoopIsTyped (plan_of c.now).program here (loop_of parts) }
    ensures { Finds (course K.ops K.first_outside (plan_of c.now) heads.now)
        (turned (course K.ops K.first_outside (plan_of c.now) heads.now) here (loop_of parts.entry) taken.old
        (mode_of mode) known)
        result taken.old taken.new }
{
    let Flow { on, ways } = pass_list(c, here, mode, parts.body, known, heads, taken)?;
    let Ways {
        broken,
        continued,
        returned,
    } = ways;
    let ended = join_reached(c, continued, on)?;
    let Flow { on, ways: _ } = pass_branch(c, here, mode, parts.next, ended, heads, taken)?;
    Ok(Flow {
        on,
        ways: Ways {
            broken,
            continued: None,
            returned,
        },
    })
}

// The side that goes on alone in a joint loop.
#[cycle(walk)]
fn pass_lone<K: CheckedStates>(
    c: &Setting<'_>,
    here: u32,
    mode: Running,
    parts: Parts<'_>,
    machine: Machine,
    known: K,
    heads: &[K],
    taken: &mut usize,
) -> Result<Flow<K>, Stop>
    requires { LoopIsTyped (plan_of c.now).program here (loop_of parts) }
    ensures { Finds (course K.ops K.first_outside (plan_of c.now) heads.now)
        (alone_of (course K.ops K.first_outside (plan_of c.now) heads.now) here (loop_of parts.entry) (mode_of mode)
        (side_of machine) known)
        result taken.old taken.new }
{
    match mode {
        Running::Alone(_) => Ok(Flow::none()),
        Running::Together => {
            let flow = pass_entered(c, here, machine, parts, known, heads, taken)?;
            come_after(parts.line, flow)
        }
    }
}

// One side's loop from its body on, with all its turns.
#[cycle(walk)]
fn pass_entered<K: CheckedStates>(
    c: &Setting<'_>,
    here: u32,
    machine: Machine,
    parts: Parts<'_>,
    known: K,
    heads: &[K],
    taken: &mut usize,
) -> Result<Flow<K>, Stop>
    requires { LoopIsTyped (plan_of c.now).program here (loop_of parts) }
    ensures { Finds (course K.ops K.first_outside (plan_of c.now) heads.now)
        (entered_of (course K.ops K.first_outside (plan_of c.now) heads.now) here (loop_of parts.entry) taken.old
        (side_of machine) (plan_of c.now).unroll known)
        result taken.old taken.new }
{
    if c.unroll == 0 {
        return Err(Stop::Fault(parts.line, AlarmKind::E4));
    }
    let alone = Running::Alone(machine);
    pass_begun(c, here, alone, parts, c.unroll - 1, known, heads, taken)
}

// A loop from its body on.
#[cycle(walk)]
fn pass_begun<K: CheckedStates>(
    c: &Setting<'_>,
    here: u32,
    mode: Running,
    parts: Parts<'_>,
    count: u32,
    known: K,
    heads: &[K],
    taken: &mut usize,
) -> Result<Flow<K>, Stop>
    requires { LoopIsTyped (plan_of c.now).program here (loop_of parts) }
    ensures { Finds (course K.ops K.first_outside (plan_of c.now) heads.now)
        (begun_of (course K.ops K.first_outside (plan_of c.now) heads.now) here (loop_of parts.entry) taken.old
        (mode_of mode) count known)
        result taken.old taken.new }
{
    let Flow { on, ways } = pass_body(c, here, mode, parts, known, heads, taken)?;
    match on {
        None => Ok(Flow { on: None, ways }),
        Some(next) => pass_rounds(c, here, mode, parts, count, ways, next, heads, taken),
    }
}

// A loop from its test on: so many turns one by one, and what comes after them.
#[cycle(walk)]
fn pass_rounds<K: CheckedStates>(
    c: &Setting<'_>,
    here: u32,
    mode: Running,
    parts: Parts<'_>,
    count: u32,
    before: Ways<K>,
    known: K,
    heads: &[K],
    taken: &mut usize,
) -> Result<Flow<K>, Stop>
    requires { LoopIsTyped (plan_of c.now).program here (loop_of parts) }
    ensures { Finds (course K.ops K.first_outside (plan_of c.now) heads.now)
        (rounds_of (course K.ops K.first_outside (plan_of c.now) heads.now) here (loop_of parts.entry)
        (mode_of mode) count taken.old known (ways_view before))
        result taken.old taken.new }
{
    let mut at = known;
    let mut ways = before;
    for _turn in 0..count {
        let Flow { on, ways: left } = pass_turn(c, here, mode, parts, ways, at, heads, taken)?;
        ways = left;
        match on {
            None => return Ok(Flow { on: None, ways }),
            Some(next) => at = next,
        }
    }
    pass_last(c, here, mode, parts, ways, at, heads, taken)
}

#[cycle(walk)]
fn pass_turn<K: CheckedStates>(
    c: &Setting<'_>,
    here: u32,
    mode: Running,
    parts: Parts<'_>,
    before: Ways<K>,
    known: K,
    heads: &[K],
    taken: &mut usize,
) -> Result<Flow<K>, Stop>
    requires { LoopIsTyped (plan_of c.now).program here (loop_of parts) }
    ensures { Finds (course K.ops K.first_outside (plan_of c.now) heads.now)
        (turn_of (course K.ops K.first_outside (plan_of c.now) heads.now) here (loop_of parts.entry) taken.old
        (mode_of mode) (ways_view before) known)
        result taken.old taken.new }
{
    let follow = Follow::Turn(parts);
    pass_test(
        c, here, mode, follow, parts.line, parts.test, before, known, heads, taken,
    )
}

#[cycle(walk)]
fn pass_last<K: CheckedStates>(
    c: &Setting<'_>,
    here: u32,
    mode: Running,
    parts: Parts<'_>,
    before: Ways<K>,
    known: K,
    heads: &[K],
    taken: &mut usize,
) -> Result<Flow<K>, Stop>
    requires { LoopIsTyped (plan_of c.now).program here (loop_of parts) }
    ensures { Finds (course K.ops K.first_outside (plan_of c.now) heads.now)
        (last_of (course K.ops K.first_outside (plan_of c.now) heads.now) here (loop_of parts.entry) taken.old
        (mode_of mode) (ways_view before) known)
        result taken.old taken.new }
{
    match mode {
        Running::Alone(_) => {
            let follow = Follow::Cut(parts.line);
            let line = parts.line;
            let flow = pass_test(
                c, here, mode, follow, line, parts.test, before, known, heads, taken,
            )?;
            Ok(Flow {
                on: None,
                ways: flow.ways,
            })
        }
        Running::Together => pass_given(c, here, parts, before, known, heads, taken),
    }
}

#[cycle(walk)]
fn pass_loop<K: CheckedStates>(
    c: &Setting<'_>,
    here: u32,
    mode: Running,
    parts: Parts<'_>,
    tests_first: bool,
    known: K,
    heads: &[K],
    taken: &mut usize,
) -> Result<Flow<K>, Stop>
    requires { LoopIsTyped (plan_of c.now).program here (loop_of parts) }
    ensures { Finds (course K.ops K.first_outside (plan_of c.now) heads.now)
        (loop_pass_of (course K.ops K.first_outside (plan_of c.now) heads.now) here (loop_of parts.entry) taken.old
        (mode_of mode) tests_first known)
        result taken.old taken.new }
{
    if tests_first {
        let ways = Ways::none();
        let flow = pass_rounds(c, here, mode, parts, c.unroll, ways, known, heads, taken)?;
        return Ok(end_loop(flow));
    }
    match mode {
        Running::Together => {
            let count = c.unroll.saturating_sub(1);
            let flow = pass_begun(c, here, mode, parts, count, known, heads, taken)?;
            Ok(end_loop(flow))
        }
        Running::Alone(m) => {
            let flow = pass_entered(c, here, m, parts, known, heads, taken)?;
            Ok(end_loop(flow))
        }
    }
}

// One turn from the next head, in which the state that comes and what comes round have to be.
#[cycle(walk)]
fn pass_given<K: CheckedStates>(
    c: &Setting<'_>,
    here: u32,
    parts: Parts<'_>,
    before: Ways<K>,
    known: K,
    heads: &[K],
    taken: &mut usize,
) -> Result<Flow<K>, Stop>
    requires { LoopIsTyped (plan_of c.now).program here (loop_of parts) }
    ensures { Finds (course K.ops K.first_outside (plan_of c.now) heads.now)
        (settled_last (course K.ops K.first_outside (plan_of c.now) heads.now) here (loop_of parts.entry) taken.old
        (ways_view before) known)
        result taken.old taken.new }
{
    let number = *taken;
    match next_head(heads, taken) {
        None => Err(Stop::Missing(parts.line)),
        Some(head) => {
            stay_within(c, number, head, known)?;
            let copy = head.copied()?;
            let together = Running::Together;
            let Flow { on, ways } = pass_turn(
                c, here, together, parts, before, copy, heads, taken,
            )?;
            stay_reached(c, number, head, on)?;
            Ok(Flow { on: None, ways })
        }
    }
}
