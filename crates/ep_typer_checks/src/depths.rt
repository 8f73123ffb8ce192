//! How deep a program's statements stand along calls.

ghost use Rattle.std.specs.Prelude.{◌≡◌, ℕ, ◌<◌, true, [], slice_index, IfOk};
ghost use Rattle.ep_int.specs.Memory.{contains};
ghost use Rattle.ep_call_graph.specs.View as view;
ghost use Rattle.ep_elaboration.specs.Leads.{Descends};
ghost use Rattle.ep_elaboration.specs.Calls as calls;
ghost use Rattle.ep_elaboration.specs.Programs as rule;
ghost use Rattle.ep_operands.specs.Refinement.{Refines};
ghost use Rattle.ep_typing.specs.Results.{at};
ghost use Rattle.ep_typer_checks.specs.Checks as checks;
ghost use Rattle.ep_typer_checks.specs.Placed.{AreOnce};

use crate::bodies::Main;
use ep_ast::{Halt, RefusalKind};
use ep_call_graph::{CallSite, depths, functions_in_order};
use ep_operands::refused;
use std::alloc::Global;

fn depth(depths: &[u64], f: u32) -> u64
    ensures { result ≡ slice_index depths.now f }
{
    match depths.get(f as usize) {
        Some(depth) => *depth,
        None => 0,
    }
}

fn not_too_deep(depth: u64, line: u32) -> Result<(), Halt>
    ensures { Refines checks.passed (at line (rule.not_too_deep depth)) result }
{
    if depth > 256 {
        return Err(refused(RefusalKind::CallDepth, line));
    }
    Ok(())
}

/// The functions that have a body, each behind those that it calls, where no statement stands too deep along calls from
/// main.
pub(crate) fn in_order(
    alloc: Global,
    count: usize,
    main: Main,
    places: &[CallSite],
    numbers: &[u32],
) -> Result<Vec<u32>, Halt>
    requires within { view.AreWithin count (view.call_sites places.now) }
    requires numbers { view.AreBelow count numbers.now }
    requires has_main { contains main.number numbers.now ≡ true }
    requires ranked { (rank : ℕ → ℕ) × Descends (calls.calls_of (view.call_sites places.now)) count rank }
    ensures shallow { Refines (λ order. true) (at main.line (rule.not_too_deep (calls.function_depth (view.call_sites
        places.now) count main.number))) result }
    ensures order { IfOk result (λ order. order.items ≡ calls.one_after_another (calls.with_function (calls.calls_of
        (view.call_sites places.now)) count) [] numbers.now) }
    ensures once { IfOk result (λ order. AreOnce [] order.items) }
    ensures below { IfOk result (λ order. view.AreBelow count order.items) }
{
    let order = functions_in_order(alloc, count, places, numbers)?;
    let depths = depths(alloc, count, places, &order)?;
    not_too_deep(depth(&depths, main.number), main.line)?;
    Ok(order)
}
