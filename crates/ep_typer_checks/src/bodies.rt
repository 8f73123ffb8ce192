//! Which functions have a body.

ghost use Rattle.std.specs.Prelude.{◌≡◌, true, map, find, not, slice_index_or, false, IfOk};
ghost use Rattle.ep_int.specs.Memory.{contains};
ghost use Rattle.ep_call_graph.specs.View as view;
ghost use Rattle.ep_call_graph.specs.Visit.{AreFlags};
ghost use Rattle.ep_defined.specs.View as defined_view;
ghost use Rattle.ep_elaboration.specs.Calls as calls;
ghost use Rattle.ep_elaboration.specs.Functions as functions;
ghost use Rattle.ep_elaboration.specs.Programs as rule;
ghost use Rattle.ep_operands.specs.Refinement.{Refines};
ghost use Rattle.ep_typer_checks.specs.Checks as checks;

use ep_ast::{Halt, RefusalKind};
use ep_call_graph::{CallSite, flags};
use ep_defined::Defined;
use ep_operands::refused;
use std::alloc::{AllocError, Global};

/// The number of main, and the line of its name.
#[derive(Clone, Copy, Debug)]
pub(crate) struct Main {
    pub number: u32,
    pub line: u32,
}

fn is_main(name: &[u8]) -> bool
    ensures { result ≡ functions.is_main name.now }
{
    name == b"main".as_slice()
}

/// The first body of main.
pub(crate) fn main_of(defined: &[Defined]) -> Result<Main, Halt>
    ensures { Refines checks.main (checks.main_in (rule.main_of (map defined_view.defined defined.now))) result }
{
    for function in defined {
        if is_main(&function.function.name) {
            return Ok(Main {
                number: function.number,
                line: function.function.line,
            });
        }
    }
    Err(refused(RefusalKind::NoMain, 1))
}

/// The numbers of functions with a body, in their order.
pub(crate) fn numbers_of(alloc: Global, defined: &[Defined]) -> Result<Vec<u32>, AllocError>
    ensures { IfOk result (λ v. v.items ≡ functions.numbers_of (map defined_view.defined defined.now)) }
{
    let mut all = Vec::new(alloc);
    for function in defined {
        all.push(function.number)?;
    }
    Ok(all)
}

fn flags_of(alloc: Global, count: usize, numbers: &[u32]) -> Result<Vec<bool>, AllocError>
    requires { view.AreBelow count numbers.now }
    ensures { IfOk result (λ v. AreFlags count v.items numbers.now) }
{
    let mut all = flags(alloc, count)?;
    for number in numbers {
        all[*number as usize] = true;
    }
    Ok(all)
}

fn has(flags: &[bool], f: u32) -> bool
    ensures { result ≡ slice_index_or flags.now f false }
{
    match flags.get(f as usize) {
        Some(flag) => *flag,
        None => false,
    }
}

fn each_has(flags: &[bool], places: &[CallSite]) -> Result<(), Halt>
    ensures { Refines checks.passed (rule.none_breaks 46 (find (checks.has_none flags.now)
        (calls.calls_of (view.call_sites places.now)))) result }
{
    for place in places {
        if let Some(callee) = place.callee {
            if !has(flags, callee) {
                return Err(refused(RefusalKind::NoDefinition, place.line));
            }
        }
    }
    Ok(())
}

/// Whether each function that is called has a body.
pub(crate) fn all_have_bodies(
    alloc: Global,
    count: usize,
    numbers: &[u32],
    places: &[CallSite],
) -> Result<(), Halt>
    requires { view.AreBelow count numbers.now }
    ensures { Refines checks.passed (rule.none_breaks 46 (find (λ c. not (contains c.callee numbers.now))
        (calls.calls_of (view.call_sites places.now)))) result }
{
    let flags = flags_of(alloc, count, numbers)?;
    each_has(&flags, places)
}
