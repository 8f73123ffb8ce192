//! The checks of a whole program, in their order.

ghost use Rattle.std.specs.Prelude.{◌≡◌, ◌<◌, [], map, length, IfOk};
ghost use Rattle.ep_call_graph.specs.View as view;
ghost use Rattle.ep_core.specs.View.{block_view};
ghost use Rattle.ep_defined.specs.View as defined_view;
ghost use Rattle.ep_elaboration.specs.Calls as calls;
ghost use Rattle.ep_elaboration.specs.Functions as functions;
ghost use Rattle.ep_elaboration.specs.Programs as rule;
ghost use Rattle.ep_elaboration.specs.ProgramSteps as steps;
ghost use Rattle.ep_operands.specs.Refinement.{Refines};
ghost use Rattle.ep_scopes.specs.View.{env as env_view};
ghost use Rattle.ep_typing.specs.Results.{at};
ghost use Rattle.ep_typer_checks.specs.Checks as checks;
ghost use Rattle.ep_typer_checks.specs.Placed.{AreOnce};

use crate::bodies::{all_have_bodies, main_of, numbers_of};
use crate::cycles::none_recurs;
use crate::depths::in_order;
use ep_ast::{Halt, RefusalKind};
use ep_call_graph::CallSite;
use ep_core::program::BlockInfo;
use ep_defined::Sofar;
use ep_operands::refused;
use ep_scopes::Env;
use std::alloc::Global;

/// The number of main, and the functions that have a body, each behind those that it calls.
#[derive(Drop)]
pub struct CallOrder {
    pub main: u32,
    pub order: Vec<u32>,
}

fn function_count(env: &Env) -> usize
    ensures { result ≡ length (env_view env.now).functions }
{
    env.functions.len()
}

fn all_fit(blocks: &[BlockInfo]) -> Result<(), Halt>
    ensures { Refines checks.passed (at 1 (rule.all_fit (map block_view blocks.now))) result }
{
    let mut left: u32 = 65_536;
    for block in blocks {
        if block.size > left {
            return Err(refused(RefusalKind::TooLarge, 1));
        }
        left -= block.size;
    }
    Ok(())
}

/// What is wrong with the whole of a program, or its main and its functions in their order.
pub fn checked(alloc: Global, sofar: &Sofar, places: &[CallSite]) -> Result<CallOrder, Halt>
    requires within { 0 < length (defined_view.sofar sofar.now).env.functions
        → view.AreWithin (length (defined_view.sofar sofar.now).env.functions) (view.call_sites places.now) }
    requires numbers { view.AreBelow (length (defined_view.sofar sofar.now).env.functions)
        (functions.numbers_of (defined_view.sofar sofar.now).defined) }
    ensures means { Refines checks.main_number
        (checks.number_in (steps.checked (defined_view.sofar sofar.now) (view.call_sites
        places.now))) result }
    ensures order { IfOk result (λ c. c.order.items ≡ rule.order_of (defined_view.sofar sofar.now) (calls.calls_of
        (view.call_sites places.now))) }
    ensures once { IfOk result (λ c. AreOnce [] c.order.items) }
    ensures below { IfOk result (λ c. view.AreBelow
        (length (defined_view.sofar sofar.now).env.functions) c.order.items) }
{
    let main = main_of(&sofar.defined)?;
    let count = function_count(&sofar.env);
    let numbers = numbers_of(alloc, &sofar.defined)?;
    all_have_bodies(alloc, count, &numbers, places)?;
    none_recurs(alloc, count, main.number, places)?;
    let order = in_order(alloc, count, main, places, &numbers)?;
    all_fit(&sofar.env.blocks)?;
    Ok(CallOrder {
        main: main.number,
        order,
    })
}
