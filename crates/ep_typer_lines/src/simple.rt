//! Tests, expressions as statements, jumps and returns.

ghost use Rattle.std.specs.Prelude.{◌≡◌, Bool, OnOk, true, false, unwrap_or};
ghost use Rattle.std.specs.Option.{option_map};
ghost use Rattle.ep_ast.specs.Expression as source;
ghost use Rattle.ep_ast.specs.Statement as shape;
ghost use Rattle.ep_core.specs.View.{expr_view, what_view};
ghost use Rattle.ep_typing.specs.Results.{at, on_statement};
ghost use Rattle.ep_typing.specs.Typing as typing;
ghost use Rattle.ep_declared.specs.Refinement.{RefinesIn};
ghost use Rattle.ep_elaboration.specs.FieldStatements.{field_statement};
ghost use Rattle.ep_elaboration.specs.Statements as rule;
ghost use Rattle.ep_operands.specs.Refinement.{Refines};
ghost use Rattle.ep_operands.specs.View as operands;
ghost use Rattle.ep_scopes.specs.Known.{IsKnownEnv};
ghost use Rattle.ep_scopes.specs.View.{env as env_view};
ghost use Rattle.ep_typer_lines.specs.View.{lines as lines_view};

use crate::nodes::one_line;
use crate::scoping::enter;
use ep_ast::{ExprTree, Halt, RefusalKind};
use ep_core::tree::{Expr, Stmt, What};
use ep_field_statements::field_statement;
use ep_int::IntType;
use ep_layout::Types;
use ep_operands::{Operand, at_statement, fitted, is_void, refused, value_of};
use ep_scopes::Env;
use ep_typer_effects::{test, whole_statement};
use ep_typer_exprs::{mention, typed_alone};
use ep_typing::CType;
use std::alloc::Global;

#[tactic(auto, unfolding(ep_elaboration::specs::Statements::tested_in))]
fn tested(env: &mut Env, tree: &ExprTree) -> Result<Expr, Halt>
    requires { IsKnownEnv (env_view env.old) }
    ensures means { RefinesIn expr_view (rule.tested_in (env_view env.old) (source.expr tree.now))
        (env_view env.new) result }
    ensures known { OnOk result (IsKnownEnv (env_view env.new)) }
{
    mention(env, tree)?;
    let w = test(env, tree)?;
    Ok(w)
}

/// The test of an `if` or a loop on this line.
pub fn tested_in(env: &mut Env, line: u32, tree: &ExprTree) -> Result<Expr, Halt>
    requires { IsKnownEnv (env_view env.old) }
    ensures means { RefinesIn expr_view
        (on_statement line (rule.tested_in (env_view env.old) (source.expr tree.now))) (env_view env.new) result }
    ensures known { OnOk result (IsKnownEnv (env_view env.new)) }
{
    match tested(env, tree) {
        Ok(w) => Ok(w),
        Err(halt) => Err(at_statement(line, halt)),
    }
}

/// The same in a scope of its own, which stays open.
pub fn tested_inside(env: &mut Env, line: u32, tree: &ExprTree) -> Result<Expr, Halt>
    requires { IsKnownEnv (env_view env.old) }
    ensures means { RefinesIn expr_view
        (on_statement line (rule.tested_in (rule.entered (env_view env.old)) (source.expr tree.now)))
        (env_view env.new) result }
    ensures known { OnOk result (IsKnownEnv (env_view env.new)) }
{
    enter(env)?;
    let w = tested_in(env, line, tree)?;
    Ok(w)
}

/// The test of a `for` on this line.
#[tactic(auto, unfolding(ep_elaboration::specs::Statements::tested_if))]
pub fn tested_if(env: &mut Env, line: u32, tree: &Option<ExprTree>) -> Result<Expr, Halt>
    requires { IsKnownEnv (env_view env.old) }
    ensures means { RefinesIn expr_view
        (on_statement line (rule.tested_if (env_view env.old) (option_map source.expr tree.now)))
        (env_view env.new) result }
    ensures known { OnOk result (IsKnownEnv (env_view env.new)) }
{
    match tree {
        None => Ok(Expr::Const(IntType::I32, 1)),
        Some(e) => tested_in(env, line, e),
    }
}

// An expression as a whole statement: one with a bit-field, or any other.
fn whole(env: &Env, may_call: bool, line: u32, tree: &ExprTree) -> Result<What, Halt>
    ensures { Refines what_view (unwrap_or (field_statement (env_view env.now) line (source.expr tree.now))
        (typing.whole_statement (env_view env.now) may_call (source.expr tree.now))) result }
{
    match field_statement(env, line, tree)? {
        Some(what) => Ok(what),
        None => whole_statement(env, may_call, tree),
    }
}

#[tactic(auto, unfolding(ep_elaboration::specs::Statements::evaluated_in))]
fn evaluated(env: &mut Env, may_call: bool, line: u32, tree: &ExprTree) -> Result<Vec<Stmt>, Halt>
    requires { IsKnownEnv (env_view env.old) }
    ensures means { RefinesIn lines_view (rule.evaluated_in (env_view env.old) may_call line (source.expr tree.now))
        (env_view env.new) result }
    ensures known { OnOk result (IsKnownEnv (env_view env.new)) }
{
    mention(env, tree)?;
    let what = whole(env, may_call, line, tree)?;
    let lines = one_line(env.alloc, line, what)?;
    Ok(lines)
}

/// An expression as a statement of this line.
pub fn evaluated_in(env: &mut Env, line: u32, tree: &ExprTree) -> Result<Vec<Stmt>, Halt>
    requires { IsKnownEnv (env_view env.old) }
    ensures means { RefinesIn lines_view
        (on_statement line (rule.evaluated_in (env_view env.old) true line (source.expr tree.now)))
        (env_view env.new) result }
    ensures known { OnOk result (IsKnownEnv (env_view env.new)) }
{
    match evaluated(env, true, line, tree) {
        Ok(lines) => Ok(lines),
        Err(halt) => Err(at_statement(line, halt)),
    }
}

fn evaluated_outside(env: &mut Env, line: u32, tree: &ExprTree) -> Result<Vec<Stmt>, Halt>
    requires { IsKnownEnv (env_view env.old) }
    ensures means { RefinesIn lines_view
        (on_statement line (rule.evaluated_in (env_view env.old) false (source.line_of (source.expr tree.now))
        (source.expr tree.now))) (env_view env.new) result }
    ensures known { OnOk result (IsKnownEnv (env_view env.new)) }
{
    match evaluated(env, false, tree.line(), tree) {
        Ok(lines) => Ok(lines),
        Err(halt) => Err(at_statement(line, halt)),
    }
}

/// An outer part of a `for` on this line. What it does stands on a line of its own.
#[tactic(auto, unfolding(ep_elaboration::specs::Statements::evaluated_if))]
pub fn evaluated_if(env: &mut Env, line: u32, tree: &Option<ExprTree>) -> Result<Vec<Stmt>, Halt>
    requires { IsKnownEnv (env_view env.old) }
    ensures means { RefinesIn lines_view
        (on_statement line (rule.evaluated_if (env_view env.old) (option_map source.expr tree.now)))
        (env_view env.new) result }
    ensures known { OnOk result (IsKnownEnv (env_view env.new)) }
{
    match tree {
        None => Ok(Vec::new(env.alloc)),
        Some(e) => evaluated_outside(env, line, e),
    }
}

/// A jump of a loop.
pub fn jump(alloc: Global, in_loop: bool, line: u32, what: What) -> Result<Vec<Stmt>, Halt>
    ensures { Refines lines_view (at line (rule.jump in_loop line (what_view what))) result }
{
    if in_loop {
        let lines = one_line(alloc, line, what)?;
        return Ok(lines);
    }
    Err(refused(RefusalKind::StrayJump, line))
}

#[tactic(auto, unfolding(ep_elaboration::specs::Statements::nothing_returned))]
fn nothing_returned(line: u32, result_type: CType) -> Result<What, Halt>
    ensures { Refines what_view (at line (rule.nothing_returned result_type)) result }
{
    if is_void(result_type) {
        return Ok(What::Return(None));
    }
    Err(refused(RefusalKind::TypeMismatch, line))
}

fn value_returned(
    alloc: Global,
    types: &Types,
    line: u32,
    result_type: CType,
    x: Operand,
) -> Result<What, Halt>
    ensures { Refines what_view (at line (rule.value_returned types.now result_type (operands.operand x))) result }
{
    let v = value_of(alloc, types, line, x)?;
    let e = fitted(alloc, line, result_type, v)?;
    Ok(What::Return(Some(e)))
}

#[tactic(auto, unfolding(ep_elaboration::specs::Statements::operand_returned))]
fn operand_returned(
    alloc: Global,
    types: &Types,
    line: u32,
    result_type: CType,
    x: Operand,
) -> Result<What, Halt>
    ensures { Refines what_view (at line (rule.operand_returned types.now result_type (operands.operand x))) result }
{
    if is_void(result_type) {
        return Err(refused(RefusalKind::TypeMismatch, line));
    }
    value_returned(alloc, types, line, result_type, x)
}

/// A return.
#[tactic(auto, unfolding(ep_elaboration::specs::Statements::statement))]
pub fn returned(
    env: &mut Env,
    line: u32,
    result_type: CType,
    value: &Option<ExprTree>,
) -> Result<Vec<Stmt>, Halt>
    requires { IsKnownEnv (env_view env.old) }
    ensures means { (in_loop : Bool) → RefinesIn lines_view (rule.statement (env_view env.old) result_type in_loop
        (shape.return_value line (option_map source.expr value.now))) (env_view env.new) result }
    ensures known { OnOk result (IsKnownEnv (env_view env.new)) }
{
    match value {
        None => {
            let what = nothing_returned(line, result_type)?;
            let lines = one_line(env.alloc, line, what)?;
            Ok(lines)
        }
        Some(tree) => {
            mention(env, tree)?;
            let x = typed_alone(env, line, tree)?;
            let what = operand_returned(env.alloc, &env.types, line, result_type, x)?;
            let lines = one_line(env.alloc, line, what)?;
            Ok(lines)
        }
    }
}
