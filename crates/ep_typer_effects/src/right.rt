//! What stands right of an assignment.

ghost use Rattle.std.specs.Prelude.{◌≡◌, true, false, map};
ghost use Rattle.ep_ast.specs.Expression as source;
ghost use Rattle.ep_ast.specs.Mark.{equal};
ghost use Rattle.ep_core.specs.View.{what_view};
ghost use Rattle.ep_layout.specs.Table.{Table};
ghost use Rattle.ep_typing.specs.Operand.{Operand as Operand'};
ghost use Rattle.ep_typing.specs.Results.{at};
ghost use Rattle.ep_typing.specs.Typing as rule;
ghost use Rattle.ep_operands.specs.Refinement.{Refines};
ghost use Rattle.ep_stores.specs.View as operands;
ghost use Rattle.ep_scopes.specs.View.{env as env_view};
ghost use Rattle.ep_typer_effects.specs.View as view;

use crate::calls::call_typed;
use ep_ast::{ExprTree, Halt};
use ep_core::tree::What;
use ep_layout::Types;
use ep_operands::Operand;
use ep_scopes::Env;
use ep_stores::{Called, assigned, taken};
use ep_typer_exprs::typed;
use std::alloc::Global;

/// An operand, or a call whose result is assigned.
#[derive(Debug, Drop)]
pub enum Right {
    Object(Operand),
    Result(Called),
}

#[tactic(auto, unfolding(ep_typing::specs::Typing::right_side))]
fn result_side(env: &Env, line: u32, f: &ExprTree, list: &[ExprTree]) -> Result<Right, Halt>
    ensures { Refines view.right (rule.right_side (env_view env.now) true (source.call line (source.expr f.now)
        (source.to_exprs (map source.expr list.now)))) result }
{
    let called = call_typed(env, line, f, list)?;
    Ok(Right::Result(called))
}

#[tactic(auto, unfolding(ep_typing::specs::Typing::right_side))]
fn object_side(env: &Env, tree: &ExprTree) -> Result<Right, Halt>
    ensures { Refines view.right (rule.right_side (env_view env.now) false (source.expr tree.now)) result }
{
    let x = typed(env, tree)?;
    Ok(Right::Object(x))
}

/// What stands right of an assignment, which is a call only where it may be one.
pub fn right_side(env: &Env, may_call: bool, tree: &ExprTree) -> Result<Right, Halt>
    ensures { Refines view.right (rule.right_side (env_view env.now) may_call (source.expr tree.now)) result }
{
    if !may_call {
        return object_side(env, tree);
    }
    match tree {
        ExprTree::Call(line, f, list) => result_side(env, *line, f, list),
        _ => object_side(env, tree),
    }
}

// A result, of which the table of types isn't asked.
fn result_taken(alloc: Global, line: u32, x: Operand, called: Called) -> Result<What, Halt>
    ensures { (t : Table) (old : Operand') → Refines what_view (at line
        (rule.assigned_from t equal (operands.operand x) old (rule.a_result (operands.called called)))) result }
{
    let dest = taken(alloc, line, x, called.result())?;
    Ok(called.into_statement(Some(dest)))
}

/// `=`, from an operand or a call.
pub fn assigned_from(
    alloc: Global,
    types: &Types,
    line: u32,
    x: Operand,
    right: Right,
) -> Result<What, Halt>
    ensures { (old : Operand') → Refines what_view
        (at line (rule.assigned_from types.now equal (operands.operand x) old (view.right right))) result }
{
    match right {
        Right::Object(y) => assigned(alloc, types, line, x, y),
        Right::Result(called) => result_taken(alloc, line, x, called),
    }
}
