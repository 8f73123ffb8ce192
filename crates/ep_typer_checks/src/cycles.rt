//! Whether functions lead to themselves.

ghost use Rattle.std.specs.Prelude.{◌≡◌, ℕ, ◌<◌, find, slice_index, OnOk};
ghost use Rattle.ep_call_graph.specs.View as view;
ghost use Rattle.ep_elaboration.specs.Leads.{Descends};
ghost use Rattle.ep_elaboration.specs.Calls as calls;
ghost use Rattle.ep_elaboration.specs.Programs as rule;
ghost use Rattle.ep_operands.specs.Refinement.{Refines};
ghost use Rattle.ep_typer_checks.specs.Checks as checks;

use ep_ast::{Halt, RefusalKind};
use ep_call_graph::{CallSite, callees, labels};
use ep_operands::refused;
use std::alloc::Global;

fn label(labels: &[u32], f: u32) -> u32
    ensures { result ≡ slice_index labels.now f }
{
    match labels.get(f as usize) {
        Some(label) => *label,
        None => 0,
    }
}

fn closes(labels: &[u32], main: u32, caller: u32, callee: u32) -> bool
    ensures { result ≡ checks.closes_at labels.now main caller callee }
{
    callee == main || label(labels, callee) == label(labels, caller)
}

fn none_closes(labels: &[u32], main: u32, places: &[CallSite]) -> Result<(), Halt>
    ensures { Refines checks.passed (rule.none_breaks 35 (find (checks.closes labels.now main)
        (calls.calls_of (view.call_sites places.now)))) result }
{
    for place in places {
        if let Some(callee) = place.callee {
            if closes(labels, main, place.caller, callee) {
                return Err(refused(RefusalKind::Recursion, place.line));
            }
        }
    }
    Ok(())
}

/// Whether no call is one of main, and none leads back to its caller.
pub(crate) fn none_recurs(
    alloc: Global,
    count: usize,
    main: u32,
    places: &[CallSite],
) -> Result<(), Halt>
    requires some { 0 < count }
    requires within { view.AreWithin count (view.call_sites places.now) }
    ensures means { Refines checks.passed
        (rule.none_breaks 35 (find (calls.is_recursive (calls.calls_of (view.call_sites
        places.now)) count main) (calls.calls_of (view.call_sites places.now)))) result }
    ensures ranked { OnOk result ((rank : ℕ → ℕ) × Descends (calls.calls_of (view.call_sites places.now)) count rank) }
{
    let lists = callees(alloc, count, places)?;
    let labels = labels(alloc, &lists)?;
    none_closes(&labels, main, places)?;
    Ok(())
}
