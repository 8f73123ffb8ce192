//! Statements, each without those in it.

ghost use Rattle.std.specs.Prelude.{◌≡◌, ◌≤◌, ◌^◌, ℕ, List, suc, [], ◌∷◌, map, IfErr, IfOk, OnOk};
ghost use Rattle.std.specs.Option.{option_map};
ghost use Rattle.ep_ast.specs.Declaration.{init_of, value_of};
ghost use Rattle.ep_ast.specs.Expression.{expr};
ghost use Rattle.ep_ast.specs.Statement.{first_of, stmt_of};
ghost use Rattle.ep_call_graph.specs.View.{call_site as shown_place};
ghost use Rattle.ep_elaboration.specs.Calls as rule;
ghost use Rattle.ep_scopes.specs.View.{env as env_view};
ghost use Rattle.ep_typer_checks.specs.View as view;

use crate::numbers::number;
use ep_ast::{ExprTree, ForInitTree, InitTree, StmtTree, ValueTree};
use ep_call_graph::CallSite;
use ep_operands::built_in;
use ep_scopes::Env;
use std::alloc::{AllocError, Global};

// What calls no function.
fn calls_none(caller: u32, depth: u32) -> CallSite
    ensures { shown_place result ≡ view.calls_none caller depth }
{
    CallSite {
        caller,
        depth,
        line: 0,
        callee: None,
    }
}

// The number of what is called by its name, but for built-in functions.
fn own_callee(env: &Env, name: &[u8]) -> Result<Option<u32>, AllocError>
    ensures { IfOk result (λ callee. callee ≡ option_map (view.number (env_view env.now)) (rule.own_callee name.now)) }
{
    match built_in(name) {
        Some(_) => Ok(None),
        None => {
            let callee = number(env, name)?;
            Ok(Some(callee))
        }
    }
}

fn named_call(env: &Env, caller: u32, depth: u32, tree: &ExprTree) -> Result<CallSite, AllocError>
    ensures { IfOk result (λ p. shown_place p
        ≡ view.call_site (view.number (env_view env.now)) caller (rule.named_call depth (expr tree.now))) }
{
    match tree {
        ExprTree::Id(line, name) => {
            let callee = own_callee(env, name)?;
            Ok(CallSite {
                caller,
                depth,
                line: *line,
                callee,
            })
        }
        _ => Ok(calls_none(caller, depth)),
    }
}

fn call_in(env: &Env, caller: u32, depth: u32, tree: &ExprTree) -> Result<CallSite, AllocError>
    ensures { IfOk result (λ p. shown_place p
        ≡ view.call_site (view.number (env_view env.now)) caller (rule.call_in depth (expr tree.now))) }
{
    match tree {
        ExprTree::Call(_, callee, _) => named_call(env, caller, depth, callee),
        _ => Ok(calls_none(caller, depth)),
    }
}

fn evaluation(env: &Env, caller: u32, depth: u32, tree: &ExprTree) -> Result<CallSite, AllocError>
    ensures { IfOk result (λ p. shown_place p
        ≡ view.call_site (view.number (env_view env.now)) caller (rule.evaluation depth (expr tree.now))) }
{
    match tree {
        ExprTree::Assign(_, _, _, value) => call_in(env, caller, depth, value),
        _ => call_in(env, caller, depth, tree),
    }
}

// An expression as a statement, or an empty one.
fn evaluated(
    env: &Env,
    caller: u32,
    depth: u32,
    value: &Option<ExprTree>,
) -> Result<CallSite, AllocError>
    ensures { IfOk result (λ p. shown_place p ≡ view.call_site (view.number (env_view env.now)) caller
        (view.evaluated depth (option_map expr value.now))) }
{
    match value {
        None => Ok(calls_none(caller, depth)),
        Some(tree) => evaluation(env, caller, depth, tree),
    }
}

/// A statement without those in it.
pub(crate) fn itself(
    env: &Env,
    caller: u32,
    depth: u32,
    tree: &StmtTree,
) -> Result<CallSite, AllocError>
    ensures { IfOk result (λ p. shown_place p ≡ view.call_site (view.number (env_view env.now)) caller
        (view.itself depth (stmt_of tree.now))) }
{
    match tree {
        StmtTree::Expr(_, value) => evaluated(env, caller, depth, value),
        _ => Ok(calls_none(caller, depth)),
    }
}

fn given(env: &Env, caller: u32, depth: u32, value: &ValueTree) -> Result<CallSite, AllocError>
    ensures { IfOk result (λ p. shown_place p ≡ view.call_site (view.number (env_view env.now)) caller
        (view.given depth (value_of value.now))) }
{
    match value {
        ValueTree::Expr(tree) => call_in(env, caller, depth, tree),
        ValueTree::List(_, _) => Ok(calls_none(caller, depth)),
    }
}

fn initialisation(
    env: &Env,
    all: &mut Vec<CallSite>,
    caller: u32,
    depth: u32,
    init: &InitTree,
) -> Result<(), AllocError>
    ensures { OnOk result (view.Adds
        (view.call_site (view.number (env_view env.now)) caller) all.old.items all.new.items
        (rule.initialisation depth (init_of init.now).value)) }
{
    match &init.value {
        None => Ok(()),
        Some(value) => {
            let place = given(env, caller, depth, value)?;
            all.push(place)?;
            Ok(())
        }
    }
}

/// Declarations with initialisers, at this depth.
pub(crate) fn initialisations(
    env: &Env,
    all: &mut Vec<CallSite>,
    caller: u32,
    depth: u32,
    inits: &[InitTree],
) -> Result<(), AllocError>
    ensures { OnOk result (view.Adds
        (view.call_site (view.number (env_view env.now)) caller) all.old.items all.new.items
        (rule.initialisations depth (map init_of inits.now))) }
{
    for init in inits {
        initialisation(env, all, caller, depth, init)?;
    }
    Ok(())
}

/// The first part of a `for`.
pub(crate) fn first(
    env: &Env,
    all: &mut Vec<CallSite>,
    caller: u32,
    depth: u32,
    tree: &ForInitTree,
) -> Result<(), AllocError>
    ensures { OnOk result (view.Adds
        (view.call_site (view.number (env_view env.now)) caller) all.old.items all.new.items
        (rule.first_stands depth (first_of tree.now))) }
{
    match tree {
        ForInitTree::Declaration(declaration) => {
            initialisations(env, all, caller, depth, &declaration.inits)
        }
        ForInitTree::Expr(_) => Ok(()),
    }
}

/// One more depth than this.
pub(crate) fn inside(round: u32) -> Result<u32, AllocError>
    ensures means { IfOk result (λ depth. depth ≡ suc round) }
    ensures full { IfErr result (λ _. 2 ^ 32 ≤ suc round) }
{
    round.checked_add(1).ok_or(AllocError)
}

/// A statement that calls nothing, in so many others; its own depth is answered.
pub(crate) fn enter(all: &mut Vec<CallSite>, caller: u32, round: u32) -> Result<u32, AllocError>
    ensures depth { IfOk result (λ depth. depth ≡ suc round) }
    ensures adds { OnOk result ((number : List ℕ → ℕ) →
        view.Adds (view.call_site number caller) all.old.items all.new.items
        (rule.calls_none (suc round) ∷ [])) }
{
    let depth = inside(round)?;
    all.push(calls_none(caller, depth))?;
    Ok(depth)
}
