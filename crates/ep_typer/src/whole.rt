//! From a text to the parts of its program.

ghost use Rattle.std.specs.Prelude.{◌≡◌, [], map, length, IfOk};
ghost use Rattle.ep_ast.specs.Statement.{item_of};
ghost use Rattle.ep_call_graph.specs.View.{AreBelow};
ghost use Rattle.ep_defined.specs.View as defined_view;
ghost use Rattle.ep_elaboration.specs.Calls.{calls_of};
ghost use Rattle.ep_elaboration.specs.Functions.{numbers_of};
ghost use Rattle.ep_elaboration.specs.Programs as rule;
ghost use Rattle.ep_elaboration.specs.ProgramSteps as steps;
ghost use Rattle.ep_operands.specs.Refinement.{Refines};
ghost use Rattle.ep_scopes.specs.View.{env as env_view};
ghost use Rattle.ep_typer_checks.specs.Checks as checks;
ghost use Rattle.ep_typer_checks.specs.Placed.{AreOnce};
ghost use Rattle.ep_typer.specs.View as view;

use crate::walk::items;
use ep_ast::{Halt, ItemTree, ProgramTree};
use ep_core::program::{BlockInfo, Function, InitByte};
use ep_defined::Sofar;
use ep_int::Model;
use ep_layout::Types;
use ep_scopes::Env;
use ep_typer_checks::{CallOrder, checked, ordered, places_of};
use ep_typer_functions::Done;
use std::alloc::{AllocError, Global};

/// The parts of a program, where `main` is the place of main among its functions.
#[derive(Drop)]
pub struct Parts {
    pub types: Types,
    pub blocks: Vec<BlockInfo>,
    pub init: Vec<InitByte>,
    pub functions: Vec<Function>,
    pub main: u32,
}

// What the items of a text declare and define.
fn declared(alloc: Global, list: &[ItemTree], model: Model) -> Result<Sofar, Halt>
    ensures { Refines defined_view.sofar (steps.items (rule.begun model) (map item_of list.now)) result }
{
    let mut sofar = Sofar::new(alloc, model)?;
    let mut done = Done::new(alloc);
    items(&mut sofar, &mut done, list)?;
    Ok(sofar)
}

// The order of a text's functions, or what is wrong with the whole of it.
fn order_of(alloc: Global, sofar: &Sofar, list: &[ItemTree]) -> Result<CallOrder, Halt>
    requires { AreBelow (length (defined_view.sofar sofar.now).env.functions)
        (numbers_of (defined_view.sofar sofar.now).defined) }
    ensures means { Refines checks.main_number (checks.number_in (steps.checked (defined_view.sofar sofar.now)
        (rule.call_sites_of (defined_view.sofar sofar.now) (map item_of list.now)))) result }
    ensures order { IfOk result (λ c. c.order.items ≡ rule.order_of (defined_view.sofar sofar.now)
        (calls_of (rule.call_sites_of (defined_view.sofar sofar.now) (map item_of list.now)))) }
    ensures once { IfOk result (λ c. AreOnce [] c.order.items) }
    ensures below { IfOk result (λ c. AreBelow (length (defined_view.sofar sofar.now).env.functions) c.order.items) }
{
    let places = places_of(alloc, &sofar.env, list)?;
    let order = checked(alloc, sofar, &places)?;
    Ok(order)
}

fn function_count(env: &Env) -> usize
    ensures { result ≡ length (env_view env.now).functions }
{
    env.functions.len()
}

fn made(alloc: Global, sofar: Sofar, order: &CallOrder) -> Result<Parts, AllocError>
    requires numbers { AreBelow (length (defined_view.sofar sofar).env.functions)
        (numbers_of (defined_view.sofar sofar).defined) }
    requires below { AreBelow (length (defined_view.sofar sofar).env.functions) order.now.order.items }
    requires once { AreOnce [] order.now.order.items }
    ensures { IfOk result (λ p. view.program p
        ≡ rule.program_of (defined_view.sofar sofar) order.now.main order.now.order.items) }
{
    let env = sofar.env;
    let count = function_count(&env);
    let functions = ordered(alloc, count, sofar.defined, &order.order, order.main)?;
    Ok(Parts {
        types: env.types,
        blocks: env.blocks,
        init: sofar.values,
        functions: functions.functions,
        main: functions.main,
    })
}

/// What a program means in a data model, or for what it is refused.
pub fn parts_of_program(alloc: Global, tree: &ProgramTree, model: Model) -> Result<Parts, Halt>
    ensures { Refines view.program (steps.elaborated model (map item_of tree.now.items.items)) result }
{
    let sofar = declared(alloc, &tree.items, model)?;
    let order = order_of(alloc, &sofar, &tree.items)?;
    let parts = made(alloc, sofar, &order)?;
    Ok(parts)
}
