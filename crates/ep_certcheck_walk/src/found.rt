//! What a checker finds.

ghost use Rattle.std.specs.Prelude.{◌≡◌, ◌≤◌, IfOk, List, if◌then◌else◌, nat_eq};
ghost use Rattle.ep_flows.specs.View.{ops_for, plan_of};
ghost use Rattle.ep_pass.specs.Pass.{join_on};
ghost use Rattle.ep_certcheck_laws.specs.Checked.{checked, spare, yes};
ghost use Rattle.ep_certcheck_walk.specs.Found.{AreFewer, IsOfHead, answer_view};
ghost use Rattle.ep_certcheck_walk.specs.Pieces.{FindsAll, IsAtEnd, end_of};
ghost use Rattle.ep_certcheck_walk.specs.Stops.{Gives, course, nothing_more};

use crate::statements::pass_function;
use crate::states::CheckedStates;
use crate::stop::{Stop, look};
use ep_alarms::{AlarmKind, Alarms};
use ep_flows::flow::{Flow, join_reached};
use ep_flows::setting::{Running, Setting};
use ep_int::Memory;
use ep_walk_parts::follow::function_at;

/// What stops a checker, or that it came to the end.
#[derive(Clone, Copy, Debug)]
pub enum Found {
    /// All heads were taken.
    Yes,
    /// A fault on this line.
    Fault(u32, AlarmKind),
    /// A state is outside the head of this number, whose cell of this number is the first that it fails.
    Outside(u64, u64),
    /// No head is left for the loop on this line.
    Missing(u32),
    /// So many heads were taken, fewer than there are.
    Spare(u64),
}

/// Goes through main once, never widens, and stops at what it finds first. The setting's number of the last head isn't
/// used. An error says that memory ran out.
pub fn check<K: CheckedStates>(c: &Setting<'_>, heads: &[K]) -> Result<Found, Memory>
    ensures answer { IfOk result (λ f. answer_view f ≡ checked (ops_for K.ops (plan_of c.now)) K.first_outside
        (plan_of c.now).unroll heads.now (plan_of c.now).order (plan_of c.now).program) }
    ensures outside { IfOk result (λ f. IsOfHead (ops_for K.ops (plan_of c.now)) K.first_outside heads.now f) }
    ensures spare { IfOk result (λ f. AreFewer heads.now f) }
{
    let mut taken = 0;
    let done = pass_main(c, heads, &mut taken);
    match done {
        Ok(()) => Ok(at_end(taken, heads.len())),
        Err(stop) => match stop {
            Stop::OutOfMemory => Err(Memory),
            Stop::Fault(line, kind) => Ok(Found::Fault(line, kind)),
            Stop::Outside(head, cell) => Ok(Found::Outside(head, cell)),
            Stop::Missing(line) => Ok(Found::Missing(line)),
        },
    }
}

// Whether all heads were taken.
fn at_end(taken: usize, given: usize) -> Found
    requires { taken ≤ given }
    ensures answer { answer_view result ≡ (if nat_eq taken given then yes else spare taken) }
    ensures plain { IsAtEnd given result }
{
    if taken == given {
        return Found::Yes;
    }
    Found::Spare(taken as u64)
}

// Main, with its end.
fn pass_main<K: CheckedStates>(c: &Setting<'_>, heads: &[K], taken: &mut usize) -> Result<(), Stop>
    requires { taken.now ≡ 0 }
    ensures { FindsAll (course K.ops K.first_outside (plan_of c.now) heads.now) result taken.new }
{
    let known: K = K::entry(c)?;
    let together = Running::Together;
    let flow = pass_function(c, c.program.main, together, Some(known), heads, taken)?;
    end_main(c, flow)
}

// Main is left by `return`, then at its end.
fn end_main<K: CheckedStates>(c: &Setting<'_>, flow: Flow<K>) -> Result<(), Stop>
    ensures { (hs : List K) → Gives (course K.ops K.first_outside (plan_of c.now) hs)
        (end_of (course K.ops K.first_outside (plan_of c.now) hs)
        (join_on (ops_for K.ops (plan_of c.now)) flow.ways.returned flow.on)) nothing_more result }
{
    let Flow { on, ways } = flow;
    let left = join_reached(c, ways.returned, on)?;
    match function_at(c, c.program.main) {
        None => Ok(()),
        Some(main) => match left {
            None => Ok(()),
            Some(known) => {
                let mut alarms = Alarms::new(c.alloc);
                known.ended(c, main, &mut alarms)?;
                look(&alarms)
            }
        },
    }
}
