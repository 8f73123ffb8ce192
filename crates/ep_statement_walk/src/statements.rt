//! The walk through statements.

ghost use Rattle.std.specs.Prelude.{◌≡◌, ◌-◌, false, true, map};
ghost use Rattle.std.specs.Option.{option_map};
ghost use Rattle.ep_core.specs.Program.{call, by_order, loop};
ghost use Rattle.ep_core.specs.View.{dest_view, expr_view, stmts_view, what_view};
ghost use Rattle.ep_flows.specs.declared.setting.Running.TheVariants.{Together};
ghost use Rattle.ep_flows.specs.View.{Passes, mode_of, plan_of, flow_view, ways_view, side_of};
ghost use Rattle.ep_flows.specs.Typed.{IsTypedTest};
ghost use Rattle.ep_pass.specs.Pass.{apart, branch, either_pass, four_ways, two_ways};
ghost use Rattle.ep_walk_parts.specs.Pieces.{alone_of, begun_of, entered_of, followed, followed_of, function};
ghost use Rattle.ep_walk_parts.specs.Pieces.{last_of, loop_of, loop_pass_of, o, one, rounds_of, row, settled_of};
ghost use Rattle.ep_walk_parts.specs.Pieces.{tested_of, turn_of, turned};
ghost use Rattle.ep_walk_parts.specs.Typed.{AreTyped, FollowIsTyped, IsTyped, LoopIsTyped};

use ep_alarms::AlarmKind;
use ep_core::tree::{Dest, Expr, Stmt, What};
use ep_flows::flow::{
    Flow, Ways, come_after, copied_ways, either, end_loop, join_all, join_reached, keep_broken,
    keep_continued, keep_on, keep_returned, leave_scope,
};
use ep_flows::heads::{come_to, rounds_known, started, tried, wider};
use ep_flows::log::Log;
use ep_flows::setting::{Machine, Running, Setting, Truths};
use ep_flows::states::AbstractStates;
use ep_int::{Memory, Order};
use ep_walk_parts::follow::{
    Follow, Parts, arm, assumed, callee, function_at, give_result, leave_function, order_of,
    pass_simple,
};

#[cycle(walk)]
fn pass_stmt<K: AbstractStates>(
    c: &Setting<'_>,
    here: u32,
    mode: Running,
    s: &Stmt,
    known: K,
    log: &mut Log<K>,
) -> Result<Flow<K>, Memory>
    requires { IsTyped (plan_of c.now).program here (what_view s.now.what) }
    ensures { Passes (one K.ops (plan_of c.now) here (what_view s.now.what)
        (mode_of mode) s.now.line known) result log.old log.new }
{
    match &s.what {
        What::Nothing
        | What::Eval(_)
        | What::Assign(_, _, _)
        | What::Clear(_, _)
        | What::CopyAggregate(_, _, _)
        | What::CopyBytes(_, _, _)
        | What::Fill(_, _, _)
        | What::Input(_, _)
        | What::Output(_, _)
        | What::ReadBytes(_, _)
        | What::WriteBytes(_, _)
        | What::Return(_) => pass_simple(c, here, mode, s, known, log),
        What::Call(k, es, d) => pass_call(c, here, mode, *k, es, d, s.line, known, log),
        What::If(test, yes, no) => {
            let follow = Follow::Arms(s.line, yes, no);
            pass_test(
                c,
                here,
                mode,
                follow,
                s.line,
                test,
                Ways::none(),
                known,
                log,
            )
        }
        What::Loop(tests_first, test, body, next) => {
            let parts = Parts {
                line: s.line,
                test,
                body,
                next,
            };
            pass_loop(c, here, mode, parts, *tests_first, known, log)
        }
        What::Break => Ok(Flow::broken(Some(known))),
        What::Continue => Ok(Flow::continued(Some(known))),
        What::ByOrder(named, yes, no) => {
            pass_order(c, here, mode, *named, s.line, yes, no, known, log)
        }
        What::Scope(blocks, body) => {
            let inner = known.enter(c, mode, blocks)?;
            let flow = pass_list(c, here, mode, body, inner, log)?;
            leave_scope(c, mode, blocks, flow)
        }
    }
}

// One statement after the other.
#[cycle(walk)]
fn pass_list<K: AbstractStates>(
    c: &Setting<'_>,
    here: u32,
    mode: Running,
    body: &[Stmt],
    known: K,
    log: &mut Log<K>,
) -> Result<Flow<K>, Memory>
    requires { AreTyped (plan_of c.now).program here (stmts_view body.now) }
    ensures { Passes (row K.ops (plan_of c.now) here (stmts_view body.now)
        (mode_of mode) known) result log.old log.new }
{
    let mut at = known;
    let mut ways = Ways::none();
    for s in body {
        let Flow { on, ways: more } = pass_stmt(c, here, mode, s, at, log)?;
        ways = join_all(c, ways, more)?;
        match on {
            None => return Ok(Flow { on: None, ways }),
            Some(next) => at = next,
        }
    }
    Ok(Flow { on: Some(at), ways })
}

// The statements, where a state is reached.
#[cycle(walk)]
fn pass_branch<K: AbstractStates>(
    c: &Setting<'_>,
    here: u32,
    mode: Running,
    body: &[Stmt],
    known: Option<K>,
    log: &mut Log<K>,
) -> Result<Flow<K>, Memory>
    requires { AreTyped (plan_of c.now).program here (stmts_view body.now) }
    ensures { Passes (branch known (row K.ops (plan_of c.now) here (stmts_view body.now)
        (mode_of mode))) result log.old log.new }
{
    match known {
        None => Ok(Flow::none()),
        Some(known) => pass_list(c, here, mode, body, known, log),
    }
}

/// Goes through the body of the function of this number, and all that it calls, from a state where one is reached;
/// where there is no such function, the state stays. An error says that memory ran out.
#[cycle(walk)]
pub fn pass_function<K: AbstractStates>(
    c: &Setting<'_>,
    k: u32,
    mode: Running,
    known: Option<K>,
    log: &mut Log<K>,
) -> Result<Flow<K>, Memory>
    ensures { Passes (branch known (function K.ops (plan_of c.now) k (mode_of mode))) result log.old log.new }
{
    match known {
        None => Ok(Flow::none()),
        Some(known) => match function_at(c, k) {
            None => Ok(Flow::on(Some(known))),
            Some(f) => pass_list(c, k, mode, &f.body, known, log),
        },
    }
}

#[cycle(walk)]
fn pass_call<K: AbstractStates>(
    c: &Setting<'_>,
    here: u32,
    mode: Running,
    k: u32,
    es: &[Expr],
    d: &Option<Dest>,
    line: u32,
    known: K,
    log: &mut Log<K>,
) -> Result<Flow<K>, Memory>
    requires { IsTyped (plan_of c.now).program here (call k (map expr_view es.now) (option_map dest_view d.now)) }
    ensures { Passes (one K.ops (plan_of c.now) here (call k (map expr_view es.now)
        (option_map dest_view d.now)) (mode_of mode) line known) result log.old log.new }
{
    match callee(c, here, k) {
        None => Ok(Flow::none()),
        Some(f) => {
            let inner = known.arguments(c, mode, f, es, line, &mut log.alarms)?;
            let flow = pass_function(c, k, mode, inner, log)?;
            let left = leave_function(c, mode, f, flow)?;
            give_result(c, mode, f, d, line, left, log)
        }
    }
}

// Arms by byte order.
#[cycle(walk)]
fn pass_order<K: AbstractStates>(
    c: &Setting<'_>,
    here: u32,
    mode: Running,
    named: Order,
    line: u32,
    yes: &[Stmt],
    no: &[Stmt],
    known: K,
    log: &mut Log<K>,
) -> Result<Flow<K>, Memory>
    requires first { AreTyped (plan_of c.now).program here (stmts_view yes.now) }
    requires second { AreTyped (plan_of c.now).program here (stmts_view no.now) }
    ensures { Passes (one K.ops (plan_of c.now) here (by_order named (stmts_view yes.now)
        (stmts_view no.now)) (mode_of mode) line known) result log.old log.new }
{
    match mode {
        Running::Together => {
            let on_left = arm(c.left, named, yes, no);
            let on_right = arm(c.right, named, yes, no);
            pass_apart(c, here, line, on_left, on_right, known, log)
        }
        Running::Alone(machine) => {
            let own = arm(order_of(c, machine), named, yes, no);
            pass_list(c, here, mode, own, known, log)
        }
    }
}

// The left side goes through the first statements, to their end, then the right side through the second from each way
// out.
#[cycle(walk)]
fn pass_apart<K: AbstractStates>(
    c: &Setting<'_>,
    here: u32,
    line: u32,
    first: &[Stmt],
    second: &[Stmt],
    known: K,
    log: &mut Log<K>,
) -> Result<Flow<K>, Memory>
    requires first { AreTyped (plan_of c.now).program here (stmts_view first.now) }
    requires second { AreTyped (plan_of c.now).program here (stmts_view second.now) }
    ensures { Passes (apart (o K.ops (plan_of c.now)) line
        (λ m s. row K.ops (plan_of c.now) here (stmts_view first.now) m s)
        (λ m s. row K.ops (plan_of c.now) here (stmts_view second.now) m s) known) result log.old log.new }
{
    let left = Running::Alone(Machine::Left);
    let right = Running::Alone(Machine::Right);
    let Flow { on, ways } = pass_list(c, here, left, first, known, log)?;
    let Ways {
        broken,
        continued,
        returned,
    } = ways;
    let flow = pass_branch(c, here, right, second, on, log)?;
    let whole = keep_on(line, flow, log)?;
    let flow = pass_branch(c, here, right, second, broken, log)?;
    let flow = keep_broken(line, flow, log)?;
    let whole = either(c, whole, flow)?;
    let flow = pass_branch(c, here, right, second, continued, log)?;
    let flow = keep_continued(line, flow, log)?;
    let whole = either(c, whole, flow)?;
    let flow = pass_branch(c, here, right, second, returned, log)?;
    let flow = keep_returned(line, flow, log)?;
    either(c, whole, flow)
}

// A test and what follows for each pair of truths, joined to the ways out so far.
#[cycle(walk)]
fn pass_test<K: AbstractStates>(
    c: &Setting<'_>,
    here: u32,
    mode: Running,
    follow: Follow<'_>,
    line: u32,
    test: &Expr,
    before: Ways<K>,
    known: K,
    log: &mut Log<K>,
) -> Result<Flow<K>, Memory>
    requires test { IsTypedTest (plan_of c.now).program (expr_view test.now) }
    requires parts { FollowIsTyped (plan_of c.now).program here (followed_of follow) }
    ensures { Passes (tested_of K.ops (plan_of c.now) here (followed_of follow.entry)
        (mode_of mode) (expr_view test.now) line (ways_view before) known) result log.old log.new }
{
    let truths = known.test(c, mode, test, line, &mut log.alarms)?;
    let flow = Flow {
        on: None,
        ways: before,
    };
    match truths {
        Truths::Stuck => Ok(flow),
        Truths::Same => pass_two(c, here, mode, follow, test, flow, known, log),
        Truths::Differs => match mode {
            Running::Together => pass_four(c, here, follow, test, flow, known, log),
            Running::Alone(_) => pass_two(c, here, mode, follow, test, flow, known, log),
        },
    }
}

// Both truths, or one.
#[cycle(walk)]
fn pass_two<K: AbstractStates>(
    c: &Setting<'_>,
    here: u32,
    mode: Running,
    follow: Follow<'_>,
    test: &Expr,
    before: Flow<K>,
    known: K,
    log: &mut Log<K>,
) -> Result<Flow<K>, Memory>
    requires test { IsTypedTest (plan_of c.now).program (expr_view test.now) }
    requires parts { FollowIsTyped (plan_of c.now).program here (followed_of follow) }
    ensures { Passes (two_ways (o K.ops (plan_of c.now)) (flow_view before) (mode_of mode)
        (expr_view test.now)
        (followed K.ops (plan_of c.now) here (followed_of follow.entry) (mode_of mode) true true)
        (followed K.ops (plan_of c.now) here (followed_of follow.entry) (mode_of mode) false false) known)
        result log.old log.new }
{
    let yes = assumed(c, mode, test, true, &known)?;
    let flow = follow_truths(c, here, mode, follow, true, true, before, yes, log)?;
    let no = assumed(c, mode, test, false, &known)?;
    follow_truths(c, here, mode, follow, false, false, flow, no, log)
}

// Maybe different truths, the left's first.
#[cycle(walk)]
fn pass_four<K: AbstractStates>(
    c: &Setting<'_>,
    here: u32,
    follow: Follow<'_>,
    test: &Expr,
    before: Flow<K>,
    known: K,
    log: &mut Log<K>,
) -> Result<Flow<K>, Memory>
    requires test { IsTypedTest (plan_of c.now).program (expr_view test.now) }
    requires parts { FollowIsTyped (plan_of c.now).program here (followed_of follow) }
    ensures { Passes (four_ways (o K.ops (plan_of c.now)) (flow_view before) (expr_view test.now)
        (followed K.ops (plan_of c.now) here (followed_of follow.entry) (mode_of Together) true true)
        (followed K.ops (plan_of c.now) here (followed_of follow.entry) (mode_of Together) true false)
        (followed K.ops (plan_of c.now) here (followed_of follow.entry) (mode_of Together) false true)
        (followed K.ops (plan_of c.now) here (followed_of follow.entry) (mode_of Together) false false) known)
        result log.old log.new }
{
    let mode = Running::Together;
    let both = known.assume(c, test, true, true)?;
    let flow = follow_truths(c, here, mode, follow, true, true, before, both, log)?;
    let left = known.assume(c, test, true, false)?;
    let flow = follow_truths(c, here, mode, follow, true, false, flow, left, log)?;
    let right = known.assume(c, test, false, true)?;
    let flow = follow_truths(c, here, mode, follow, false, true, flow, right, log)?;
    let neither = known.assume(c, test, false, false)?;
    follow_truths(c, here, mode, follow, false, false, flow, neither, log)
}

// What follows these truths, where a state is reached, joined to what came before.
#[cycle(walk)]
fn follow_truths<K: AbstractStates>(
    c: &Setting<'_>,
    here: u32,
    mode: Running,
    follow: Follow<'_>,
    on_left: bool,
    on_right: bool,
    before: Flow<K>,
    known: Option<K>,
    log: &mut Log<K>,
) -> Result<Flow<K>, Memory>
    requires { FollowIsTyped (plan_of c.now).program here (followed_of follow) }
    ensures { Passes (either_pass (o K.ops (plan_of c.now)) (flow_view before)
        (branch known (followed K.ops (plan_of c.now) here (followed_of follow.entry)
        (mode_of mode) on_left on_right))) result log.old log.new }
{
    let next = follow_reached(c, here, mode, follow, on_left, on_right, known, log)?;
    either(c, before, next)
}

// What follows these truths, where a state is reached.
#[cycle(walk)]
fn follow_reached<K: AbstractStates>(
    c: &Setting<'_>,
    here: u32,
    mode: Running,
    follow: Follow<'_>,
    on_left: bool,
    on_right: bool,
    known: Option<K>,
    log: &mut Log<K>,
) -> Result<Flow<K>, Memory>
    requires { FollowIsTyped (plan_of c.now).program here (followed_of follow) }
    ensures { Passes (branch known (followed K.ops (plan_of c.now) here
        (followed_of follow.entry) (mode_of mode) on_left on_right)) result log.old log.new }
{
    match known {
        None => Ok(Flow::none()),
        Some(known) => follow_one(c, here, mode, follow, on_left, on_right, known, log),
    }
}

#[cycle(walk)]
fn follow_one<K: AbstractStates>(
    c: &Setting<'_>,
    here: u32,
    mode: Running,
    follow: Follow<'_>,
    on_left: bool,
    on_right: bool,
    known: K,
    log: &mut Log<K>,
) -> Result<Flow<K>, Memory>
    requires { FollowIsTyped (plan_of c.now).program here (followed_of follow) }
    ensures { Passes (followed K.ops (plan_of c.now) here (followed_of follow.entry)
        (mode_of mode) on_left on_right known) result log.old log.new }
{
    match follow {
        Follow::Arms(line, yes, no) => match (on_left, on_right) {
            (true, true) => pass_list(c, here, mode, yes, known, log),
            (true, false) => pass_apart(c, here, line, yes, no, known, log),
            (false, true) => pass_apart(c, here, line, no, yes, known, log),
            (false, false) => pass_list(c, here, mode, no, known, log),
        },
        Follow::Turn(parts) => match (on_left, on_right) {
            (true, true) => pass_body(c, here, mode, parts, known, log),
            (true, false) => pass_lone(c, here, mode, parts, Machine::Left, known, log),
            (false, true) => pass_lone(c, here, mode, parts, Machine::Right, known, log),
            (false, false) => Ok(Flow::broken(Some(known))),
        },
        Follow::Cut(line) => match (on_left, on_right) {
            (true, true) => {
                log.alarm(AlarmKind::E4, line)?;
                Ok(Flow::none())
            }
            (true, false) => Ok(Flow::none()),
            (false, true) => Ok(Flow::none()),
            (false, false) => Ok(Flow::broken(Some(known))),
        },
    }
}

// The body of a loop, and its step part, once.
#[cycle(walk)]
fn pass_body<K: AbstractStates>(
    c: &Setting<'_>,
    here: u32,
    mode: Running,
    parts: Parts<'_>,
    known: K,
    log: &mut Log<K>,
) -> Result<Flow<K>, Memory>
    requires { LoopIsTyped (plan_of c.now).program here (loop_of parts) }
    ensures { Passes (turned K.ops (plan_of c.now) here (loop_of parts.entry)
        (mode_of mode) known) result log.old log.new }
{
    log.turn();
    let Flow { on, ways } = pass_list(c, here, mode, parts.body, known, log)?;
    let Ways {
        broken,
        continued,
        returned,
    } = ways;
    let ended = join_reached(c, continued, on)?;
    let Flow { on, ways: _ } = pass_branch(c, here, mode, parts.next, ended, log)?;
    Ok(Flow {
        on,
        ways: Ways {
            broken,
            continued: None,
            returned,
        },
    })
}

// The side that goes on alone in a joint loop.
#[cycle(walk)]
fn pass_lone<K: AbstractStates>(
    c: &Setting<'_>,
    here: u32,
    mode: Running,
    parts: Parts<'_>,
    machine: Machine,
    known: K,
    log: &mut Log<K>,
) -> Result<Flow<K>, Memory>
    requires { LoopIsTyped (plan_of c.now).program here (loop_of parts) }
    ensures { Passes (alone_of K.ops (plan_of c.now) here (loop_of parts.entry) (mode_of mode)
        (side_of machine) known) result log.old log.new }
{
    match mode {
        Running::Alone(_) => Ok(Flow::none()),
        Running::Together => {
            let flow = pass_entered(c, here, machine, parts, known, log)?;
            come_after(parts.line, flow, log)
        }
    }
}

// One side's loop from its body on, with all its turns.
#[cycle(walk)]
fn pass_entered<K: AbstractStates>(
    c: &Setting<'_>,
    here: u32,
    machine: Machine,
    parts: Parts<'_>,
    known: K,
    log: &mut Log<K>,
) -> Result<Flow<K>, Memory>
    requires { LoopIsTyped (plan_of c.now).program here (loop_of parts) }
    ensures { Passes (entered_of K.ops (plan_of c.now) here (loop_of parts.entry)
        (side_of machine) (plan_of c.now).unroll known) result log.old log.new }
{
    if c.unroll == 0 {
        log.alarm(AlarmKind::E4, parts.line)?;
        return Ok(Flow::none());
    }
    pass_begun(
        c,
        here,
        Running::Alone(machine),
        parts,
        c.unroll - 1,
        known,
        log,
    )
}

// A loop from its body on.
#[cycle(walk)]
fn pass_begun<K: AbstractStates>(
    c: &Setting<'_>,
    here: u32,
    mode: Running,
    parts: Parts<'_>,
    count: u32,
    known: K,
    log: &mut Log<K>,
) -> Result<Flow<K>, Memory>
    requires { LoopIsTyped (plan_of c.now).program here (loop_of parts) }
    ensures { Passes (begun_of K.ops (plan_of c.now) here (loop_of parts.entry)
        (mode_of mode) count known) result log.old log.new }
{
    let Flow { on, ways } = pass_body(c, here, mode, parts, known, log)?;
    match on {
        None => Ok(Flow { on: None, ways }),
        Some(next) => pass_rounds(c, here, mode, parts, count, ways, next, log),
    }
}

// A loop from its test on: so many turns one by one, and what comes after them.
#[cycle(walk)]
fn pass_rounds<K: AbstractStates>(
    c: &Setting<'_>,
    here: u32,
    mode: Running,
    parts: Parts<'_>,
    count: u32,
    before: Ways<K>,
    known: K,
    log: &mut Log<K>,
) -> Result<Flow<K>, Memory>
    requires { LoopIsTyped (plan_of c.now).program here (loop_of parts) }
    ensures { Passes (rounds_of K.ops (plan_of c.now) here (loop_of parts.entry)
        (mode_of mode) count known (ways_view before)) result log.old log.new }
{
    let mut at = known;
    let mut ways = before;
    for _turn in 0..count {
        let Flow { on, ways: left } = pass_turn(c, here, mode, parts, ways, at, log)?;
        ways = left;
        match on {
            None => return Ok(Flow { on: None, ways }),
            Some(next) => at = next,
        }
    }
    let Flow { on: _, ways } = pass_last(c, here, mode, parts, ways, at, log)?;
    Ok(Flow { on: None, ways })
}

#[cycle(walk)]
fn pass_turn<K: AbstractStates>(
    c: &Setting<'_>,
    here: u32,
    mode: Running,
    parts: Parts<'_>,
    before: Ways<K>,
    known: K,
    log: &mut Log<K>,
) -> Result<Flow<K>, Memory>
    requires { LoopIsTyped (plan_of c.now).program here (loop_of parts) }
    ensures { Passes (turn_of K.ops (plan_of c.now) here (loop_of parts.entry) (mode_of mode)
        (ways_view before) known) result log.old log.new }
{
    pass_test(
        c,
        here,
        mode,
        Follow::Turn(parts),
        parts.line,
        parts.test,
        before,
        known,
        log,
    )
}

#[cycle(walk)]
fn pass_last<K: AbstractStates>(
    c: &Setting<'_>,
    here: u32,
    mode: Running,
    parts: Parts<'_>,
    before: Ways<K>,
    known: K,
    log: &mut Log<K>,
) -> Result<Flow<K>, Memory>
    requires { LoopIsTyped (plan_of c.now).program here (loop_of parts) }
    ensures { Passes (last_of K.ops (plan_of c.now) here (loop_of parts.entry) (mode_of mode)
        (ways_view before) known) result log.old log.new }
{
    match mode {
        Running::Alone(_) => {
            pass_test(
                c,
                here,
                mode,
                Follow::Cut(parts.line),
                parts.line,
                parts.test,
                before,
                known,
                log,
            )
        }
        Running::Together => {
            let head = known.reshared(c)?;
            pass_heads(c, here, parts, before, head, log)
        }
    }
}

#[cycle(walk)]
fn pass_loop<K: AbstractStates>(
    c: &Setting<'_>,
    here: u32,
    mode: Running,
    parts: Parts<'_>,
    tests_first: bool,
    known: K,
    log: &mut Log<K>,
) -> Result<Flow<K>, Memory>
    requires { LoopIsTyped (plan_of c.now).program here (loop_of parts) }
    ensures { Passes (loop_pass_of K.ops (plan_of c.now) here (loop_of parts.entry)
        (mode_of mode) tests_first known) result log.old log.new }
{
    if tests_first {
        let flow = pass_rounds(c, here, mode, parts, c.unroll, Ways::none(), known, log)?;
        return Ok(end_loop(flow));
    }
    match mode {
        Running::Together => {
            let count = c.unroll.saturating_sub(1);
            let flow = pass_begun(c, here, mode, parts, count, known, log)?;
            Ok(end_loop(flow))
        }
        Running::Alone(m) => {
            let flow = pass_entered(c, here, m, parts, known, log)?;
            Ok(end_loop(flow))
        }
    }
}

// The turn from the head that is kept. Where a head comes again, the turns between are not made again.
#[cycle(walk)]
fn pass_heads<K: AbstractStates>(
    c: &Setting<'_>,
    here: u32,
    parts: Parts<'_>,
    before: Ways<K>,
    known: K,
    log: &mut Log<K>,
) -> Result<Flow<K>, Memory>
    requires { LoopIsTyped (plan_of c.now).program here (loop_of parts) }
    ensures { Passes (settled_of K.ops (plan_of c.now) here (loop_of parts.entry)
        (ways_view before) ((plan_of c.now).limit - 1) known) result log.old log.new }
{
    let mut head = known;
    let mut rounds = started(&head, c.limit.saturating_sub(1))?;
    'heads: while rounds.left > 0 {
        let mut found = log.begun(c.alloc);
        let kept = copied_ways(&before)?;
        let copy = head.copied()?;
        let turn = pass_turn(c, here, Running::Together, parts, kept, copy, &mut found);
        log.count_more(1, found.count);
        let flow = turn?;
        match wider(c, &head, &flow.on)? {
            None => {
                log.keep(head, found)?;
                return Ok(flow);
            }
            Some(next) => {
                head = next;
                rounds_known::<K>();
                rounds = come_to(tried(rounds, found.count), &head, log)?;
            }
        }
    }
    let head = K::empty(c)?;
    let mut found = log.begun(c.alloc);
    let copy = head.copied()?;
    let turn = pass_turn(c, here, Running::Together, parts, before, copy, &mut found);
    log.count_more(1, found.count);
    let flow = turn?;
    log.keep(head, found)?;
    Ok(flow)
}
