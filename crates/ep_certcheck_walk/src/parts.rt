//! What is done with one statement alone, or with what leaves statements.

ghost use Rattle.std.specs.Prelude.{◌≡◌, ◌++◌, ℕ, true, IfOk, List, map};
ghost use Rattle.std.specs.Option.{option_map};
ghost use Rattle.ep_core.specs.Exec.{on};
ghost use Rattle.ep_core.specs.View.{dest_view, expr_view, function_view, what_view};
ghost use Rattle.ep_flows.specs.Typed.{AreArguments, IsTypedTest, TakesResult};
ghost use Rattle.ep_flows.specs.View.{flow_view, is_simple, mode_of, plan_of, verdict_of};
ghost use Rattle.ep_pass.specs.Pass.{branch, comes_after, differ, found_at, simple_pass};
ghost use Rattle.ep_walk_parts.specs.Typed.{IsTyped};
ghost use Rattle.ep_certcheck_walk.specs.Pieces.{one, only, reached};
ghost use Rattle.ep_certcheck_walk.specs.Stops.{Course, Finds, Gives, checking, course, nothing_more};
ghost use Rattle.ep_certcheck_walk.specs.Leaving.{way_of_leaving};

use crate::states::CheckedStates;
use crate::stop::{Stop, look};
use ep_alarms::{AlarmKind, Alarms};
use ep_core::program::Function;
use ep_core::tree::{Dest, Expr, Stmt};
use ep_flows::flow::{Flow, Ways};
use ep_flows::setting::{Running, Setting, Truths};
use ep_int::Memory;
use ep_walk_parts::follow::{result_of, returns};

/// How statements are left.
#[derive(Clone, Copy)]
pub enum Leaving {
    On,
    Broken,
    Continued,
    Returned,
}

/// A statement without statements in it.
pub fn pass_simple<K: CheckedStates>(
    c: &Setting<'_>,
    here: u32,
    mode: Running,
    s: &Stmt,
    known: K,
) -> Result<Flow<K>, Stop>
    requires simple { is_simple (what_view s.now.what) ≡ true }
    requires typed { IsTyped (plan_of c.now).program here (what_view s.now.what) }
    ensures { (hs : List K) (n : ℕ) → Finds (course K.ops K.first_outside (plan_of c.now) hs)
        (one (course K.ops K.first_outside (plan_of c.now) hs) here (what_view s.now.what) n (mode_of mode) s.now.line
        known) result n n }
{
    let mut alarms = Alarms::new(c.alloc);
    let next = known.simple(c, mode, result_of(c, here), s, &mut alarms)?;
    look(&alarms)?;
    if returns(&s.what) {
        return Ok(Flow::returned(next));
    }
    Ok(Flow::on(next))
}

/// The arguments of a call go to the parameters.
pub fn enter_call<K: CheckedStates>(
    c: &Setting<'_>,
    mode: Running,
    f: &Function,
    es: &[Expr],
    line: u32,
    known: K,
) -> Result<Option<K>, Stop>
    requires { AreArguments (plan_of c.now).program (function_view f.now) (map expr_view es.now) }
    ensures { (hs : List K) → Gives (course K.ops K.first_outside (plan_of c.now) hs) (found_at line
        ((checking (course K.ops K.first_outside (plan_of c.now) hs)).arguments (mode_of mode) (function_view f.now)
        (map expr_view es.now) known).faults) (λ r. r ≡ ((checking (course K.ops K.first_outside (plan_of c.now)
        hs)).arguments (mode_of mode) (function_view f.now) (map expr_view es.now) known).next) result }
{
    let mut alarms = Alarms::new(c.alloc);
    let next = known.arguments(c, mode, f, es, line, &mut alarms)?;
    look(&alarms)?;
    Ok(next)
}

/// What comes of a call, where its body is left.
pub fn give_result<K: CheckedStates>(
    c: &Setting<'_>,
    mode: Running,
    f: &Function,
    d: &Option<Dest>,
    line: u32,
    left: Option<K>,
) -> Result<Flow<K>, Stop>
    requires { TakesResult (plan_of c.now).program (function_view f.now) (option_map dest_view d.now) }
    ensures { (hs : List K) (n : ℕ) → Finds (course K.ops K.first_outside (plan_of c.now) hs)
        (branch left (λ s. simple_pass on line ((checking (course K.ops K.first_outside (plan_of c.now) hs)).result
        (mode_of mode) (function_view f.now) (option_map dest_view d.now) s))) result n n }
{
    match left {
        None => Ok(Flow::none()),
        Some(left) => {
            let mut alarms = Alarms::new(c.alloc);
            let next = left.result(c, mode, f, d, line, &mut alarms)?;
            look(&alarms)?;
            Ok(Flow::on(next))
        }
    }
}

/// What is known of a test's truths.
pub fn truths_of<K: CheckedStates>(
    c: &Setting<'_>,
    mode: Running,
    e: &Expr,
    line: u32,
    known: &K,
) -> Result<Truths, Stop>
    requires { IsTypedTest (plan_of c.now).program (expr_view e.now) }
    ensures { (hs : List K) → Gives (course K.ops K.first_outside (plan_of c.now) hs) (found_at line
        ((checking (course K.ops K.first_outside (plan_of c.now) hs)).test (mode_of mode) (expr_view e.now)
        known.now).faults) (λ v. verdict_of v ≡ ((checking (course K.ops K.first_outside (plan_of c.now) hs)).test
        (mode_of mode) (expr_view e.now) known.now).verdict) result }
{
    let mut alarms = Alarms::new(c.alloc);
    let truths = known.test(c, mode, e, line, &mut alarms)?;
    look(&alarms)?;
    Ok(truths)
}

/// Where a test has these truths on the running machines.
pub fn reach<K: CheckedStates>(
    c: &Setting<'_>,
    mode: Running,
    e: &Expr,
    on_left: bool,
    on_right: bool,
    known: &K,
) -> Result<Option<K>, Memory>
    requires { IsTypedTest (plan_of c.now).program (expr_view e.now) }
    ensures { (hs : List K) → IfOk result (λ r. r ≡ reached (course K.ops K.first_outside (plan_of c.now) hs)
        (mode_of mode) (expr_view e.now) on_left on_right known.now) }
{
    match mode {
        Running::Together => known.assume(c, e, on_left, on_right),
        Running::Alone(m) => known.assume_one(c, m, e, on_left),
    }
}

// The sides are left by different ways, where this state is reached.
fn differ_at<K>(line: u32, way: &Option<K>) -> Result<(), Stop>
    ensures { (k : Course K) → Gives k (differ line way.now) nothing_more result }
{
    match way {
        None => Ok(()),
        Some(_) => Err(Stop::Fault(line, AlarmKind::E3)),
    }
}

// The same of three.
fn differ_all<K>(
    line: u32,
    first: &Option<K>,
    second: &Option<K>,
    third: &Option<K>,
) -> Result<(), Stop>
    ensures { (k : Course K) → Gives k (differ line first.now ++ (differ line second.now
        ++ differ line third.now)) nothing_more result }
{
    differ_at(line, first)?;
    differ_at(line, second)?;
    differ_at(line, third)
}

/// One way out is kept; each other one that is reached stops.
pub fn keep<K: Drop>(by: Leaving, line: u32, flow: Flow<K>) -> Result<Flow<K>, Stop>
    ensures { (k : Course K) (n : ℕ) → Finds k (only (way_of_leaving by) line (flow_view flow)) result n n }
{
    let Flow { on, ways } = flow;
    let Ways {
        broken,
        continued,
        returned,
    } = ways;
    match by {
        Leaving::On => {
            differ_all(line, &broken, &continued, &returned)?;
            Ok(Flow::on(on))
        }
        Leaving::Broken => {
            differ_all(line, &on, &continued, &returned)?;
            Ok(Flow::broken(broken))
        }
        Leaving::Continued => {
            differ_all(line, &on, &broken, &returned)?;
            Ok(Flow::continued(continued))
        }
        Leaving::Returned => {
            differ_all(line, &on, &broken, &continued)?;
            Ok(Flow::returned(returned))
        }
    }
}

/// One side has come out of a loop while the other had left it.
pub fn come_after<K: Drop>(line: u32, flow: Flow<K>) -> Result<Flow<K>, Stop>
    ensures { (k : Course K) (n : ℕ) → Finds k (comes_after line (flow_view flow)) result n n }
{
    let Flow { on: _, ways } = flow;
    let Ways {
        broken,
        continued: _,
        returned,
    } = ways;
    differ_at(line, &returned)?;
    Ok(Flow::broken(broken))
}
