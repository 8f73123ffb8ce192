//! The statements of a whole text.

ghost use Rattle.std.specs.Prelude.{◌≡◌, ◌<◌, map, length, IfOk, OnOk};
ghost use Rattle.ep_ast.specs.Statement.{function_of, item_of};
ghost use Rattle.ep_call_graph.specs.View as places;
ghost use Rattle.ep_elaboration.specs.Calls as rule;
ghost use Rattle.ep_elaboration.specs.Programs as programs;
ghost use Rattle.ep_scopes.specs.View.{env as env_view};
ghost use Rattle.ep_typer_checks.specs.View as view;

use crate::numbers::number;
use crate::stands::enter;
use crate::statements::parts;
use ep_ast::{FunctionTree, ItemTree};
use ep_call_graph::CallSite;
use ep_scopes::Env;
use std::alloc::{AllocError, Global};

fn in_function(
    env: &Env,
    all: &mut Vec<CallSite>,
    round: u32,
    function: &FunctionTree,
) -> Result<(), AllocError>
    ensures { OnOk result (view.Adds (view.call_site_of (view.number (env_view env.now))) all.old.items all.new.items
        (rule.in_function round (function_of function.now))) }
{
    let caller = number(env, &function.head.name)?;
    parts(env, all, caller, round, &function.body.items)?;
    Ok(())
}

fn in_functions(
    env: &Env,
    all: &mut Vec<CallSite>,
    round: u32,
    list: &[FunctionTree],
) -> Result<(), AllocError>
    ensures { OnOk result (view.Adds (view.call_site_of (view.number (env_view env.now))) all.old.items all.new.items
        (rule.in_functions round (map function_of list.now))) }
{
    for function in list {
        in_function(env, all, round, function)?;
    }
    Ok(())
}

// Functions by byte order are one whose body is a conditional.
fn conditionals(env: &Env, all: &mut Vec<CallSite>, list: &[FunctionTree]) -> Result<(), AllocError>
    ensures { OnOk result (view.Adds (view.call_site_of (view.number (env_view env.now))) all.old.items all.new.items
        (rule.conditionals (map function_of list.now))) }
{
    for function in list {
        let caller = number(env, &function.head.name)?;
        enter(all, caller, 0)?;
    }
    Ok(())
}

fn in_arms(
    env: &Env,
    all: &mut Vec<CallSite>,
    then: &[FunctionTree],
    otherwise: &Option<Vec<FunctionTree>>,
) -> Result<(), AllocError>
    ensures { OnOk result (view.Adds (view.call_site_of (view.number (env_view env.now))) all.old.items all.new.items
        (view.in_arms (map function_of then.now) otherwise.now)) }
{
    conditionals(env, all, then)?;
    in_functions(env, all, 1, then)?;
    match otherwise {
        None => Ok(()),
        Some(others) => {
            in_functions(env, all, 1, others)?;
            Ok(())
        }
    }
}

fn in_item(env: &Env, all: &mut Vec<CallSite>, item: &ItemTree) -> Result<(), AllocError>
    ensures { OnOk result (view.Adds (view.call_site_of (view.number (env_view env.now))) all.old.items all.new.items
        (rule.in_item (item_of item.now))) }
{
    match item {
        ItemTree::Typedef(_) => Ok(()),
        ItemTree::Function(function) => in_function(env, all, 0, function),
        ItemTree::Prototype(_) => Ok(()),
        ItemTree::Declaration(_) => Ok(()),
        ItemTree::Aggregate(_) => Ok(()),
        ItemTree::Arms(_, _, then, otherwise) => in_arms(env, all, then, otherwise),
    }
}

fn in_items(env: &Env, all: &mut Vec<CallSite>, items: &[ItemTree]) -> Result<(), AllocError>
    ensures { OnOk result (view.Adds (view.call_site_of (view.number (env_view env.now))) all.old.items all.new.items
        (rule.in_items (map item_of items.now))) }
{
    for item in items {
        in_item(env, all, item)?;
    }
    Ok(())
}

/// The statements of a text, whose functions go by their numbers among the declared ones.
pub fn places_of(alloc: Global, env: &Env, items: &[ItemTree]) -> Result<Vec<CallSite>, AllocError>
    ensures means { IfOk result (λ v. places.call_sites v.items
        ≡ map (programs.call_site_of (env_view env.now).functions) (rule.in_items (map item_of items.now))) }
    ensures within { IfOk result (λ v. 0 < length (env_view env.now).functions
        → places.AreWithin (length (env_view env.now).functions) (places.call_sites v.items)) }
{
    let mut all = Vec::new(alloc);
    in_items(env, &mut all, items)?;
    Ok(all)
}
