//! Statements inside one another.

ghost use Rattle.std.specs.Prelude.{map, OnOk};
ghost use Rattle.ep_ast.specs.Statement.{part_of, stmt_of, to_parts, to_stmts};
ghost use Rattle.ep_elaboration.specs.Calls as rule;
ghost use Rattle.ep_scopes.specs.View.{env as env_view};
ghost use Rattle.ep_typer_checks.specs.View as view;

use crate::stands::{enter, first, initialisations, inside, itself};
use ep_ast::{BlockItemTree, StmtTree};
use ep_call_graph::CallSite;
use ep_scopes::Env;
use std::alloc::AllocError;

/// The statements of a statement, with itself, in so many others of this function.
#[cycle(walk)]
fn statement(
    env: &Env,
    all: &mut Vec<CallSite>,
    caller: u32,
    round: u32,
    tree: &StmtTree,
) -> Result<(), AllocError>
    ensures { OnOk result (view.Adds
        (view.call_site (view.number (env_view env.now)) caller) all.old.items all.new.items
        (rule.stands round (stmt_of tree.now))) }
{
    let depth = inside(round)?;
    let place = itself(env, caller, depth, tree)?;
    all.push(place)?;
    inner(env, all, caller, depth, tree)
}

/// The statements in a statement that stands at this depth.
#[cycle(walk)]
fn inner(
    env: &Env,
    all: &mut Vec<CallSite>,
    caller: u32,
    depth: u32,
    tree: &StmtTree,
) -> Result<(), AllocError>
    ensures { OnOk result (view.Adds
        (view.call_site (view.number (env_view env.now)) caller) all.old.items all.new.items
        (view.inner depth (stmt_of tree.now))) }
{
    match tree {
        StmtTree::Block(_, items) => parts(env, all, caller, depth, items),
        StmtTree::Expr(_, _) => Ok(()),
        StmtTree::If(_, _, then, otherwise) => {
            statement(env, all, caller, depth, then)?;
            match otherwise {
                None => Ok(()),
                Some(other) => statement(env, all, caller, depth, other),
            }
        }
        StmtTree::While(_, _, turn) => statement(env, all, caller, depth, turn),
        StmtTree::Do(_, turn, _) => statement(env, all, caller, depth, turn),
        StmtTree::For(_, heading, turn) => {
            let deeper = inside(depth)?;
            first(env, all, caller, deeper, &heading.first)?;
            statement(env, all, caller, depth, turn)
        }
        StmtTree::Break(_) => Ok(()),
        StmtTree::Continue(_) => Ok(()),
        StmtTree::Return(_, _) => Ok(()),
    }
}

#[cycle(walk)]
fn statements(
    env: &Env,
    all: &mut Vec<CallSite>,
    caller: u32,
    round: u32,
    list: &[StmtTree],
) -> Result<(), AllocError>
    ensures { OnOk result (view.Adds
        (view.call_site (view.number (env_view env.now)) caller) all.old.items all.new.items
        (rule.stands_in_stmts round (to_stmts (map stmt_of list.now)))) }
{
    for tree in list {
        statement(env, all, caller, round, tree)?;
    }
    Ok(())
}

#[cycle(walk)]
fn part(
    env: &Env,
    all: &mut Vec<CallSite>,
    caller: u32,
    round: u32,
    tree: &BlockItemTree,
) -> Result<(), AllocError>
    ensures { OnOk result (view.Adds
        (view.call_site (view.number (env_view env.now)) caller) all.old.items all.new.items
        (rule.stands_in_part round (part_of tree.now))) }
{
    match tree {
        BlockItemTree::Declaration(declaration) => {
            let depth = inside(round)?;
            initialisations(env, all, caller, depth, &declaration.inits)?;
            Ok(())
        }
        BlockItemTree::Statement(one) => {
            statement(env, all, caller, round, one)?;
            Ok(())
        }
        BlockItemTree::Arms(_, _, then, otherwise) => {
            let depth = enter(all, caller, round)?;
            statements(env, all, caller, depth, then)?;
            match otherwise {
                None => Ok(()),
                Some(others) => {
                    statements(env, all, caller, depth, others)?;
                    Ok(())
                }
            }
        }
    }
}

/// The statements of the parts of a block, in so many others of this function.
#[cycle(walk)]
pub(crate) fn parts(
    env: &Env,
    all: &mut Vec<CallSite>,
    caller: u32,
    round: u32,
    list: &[BlockItemTree],
) -> Result<(), AllocError>
    ensures { OnOk result (view.Adds
        (view.call_site (view.number (env_view env.now)) caller) all.old.items all.new.items
        (rule.stands_in_parts round (to_parts (map part_of list.now)))) }
{
    for tree in list {
        part(env, all, caller, round, tree)?;
    }
    Ok(())
}
