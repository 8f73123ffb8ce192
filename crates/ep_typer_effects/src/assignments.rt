//! Assignments and steps.

ghost use Rattle.std.specs.Prelude.{◌≡◌};
ghost use Rattle.ep_ast.specs.Expression as source;
ghost use Rattle.ep_ast.specs.Mark.{mark_number};
ghost use Rattle.ep_core.specs.View.{what_view};
ghost use Rattle.ep_typing.specs.Operand.{value_of};
ghost use Rattle.ep_typing.specs.Results.{at};
ghost use Rattle.ep_typing.specs.Typing as rule;
ghost use Rattle.ep_operands.specs.Refinement.{Refines};
ghost use Rattle.ep_operands.specs.View as operands;
ghost use Rattle.ep_scopes.specs.View.{env as env_view};
ghost use Rattle.ep_typer_effects.specs.Whole as whole;

use crate::right::{assigned_from, right_side};
use ep_ast::{ExprTree, Halt, Mark};
use ep_core::tree::{Expr, What};
use ep_int::IntType;
use ep_operands::{Operand, Value, copy_operand, value_of};
use ep_scopes::Env;
use ep_stores::{operator_of, updated};
use ep_typer_exprs::typed;

// `=`.
fn plainly_assigned(
    env: &Env,
    may_call: bool,
    line: u32,
    a: &ExprTree,
    b: &ExprTree,
) -> Result<What, Halt>
    ensures { Refines what_view (whole.plain (env_view env.now) may_call line (source.expr a.now)
        (source.expr b.now)) result }
{
    let x = typed(env, a)?;
    let right = right_side(env, may_call, b)?;
    assigned_from(env.alloc, &env.types, line, x, right)
}

// The value of a left side, which stays.
fn read(env: &Env, line: u32, x: &Operand) -> Result<Value, Halt>
    ensures { Refines operands.value (at line (value_of (env_view env.now).types (operands.operand x.now))) result }
{
    let copy = copy_operand(env.alloc, x)?;
    value_of(env.alloc, &env.types, line, copy)
}

// An operator and `=`.
fn compoundly_assigned(
    env: &Env,
    line: u32,
    mark: Mark,
    a: &ExprTree,
    b: &ExprTree,
) -> Result<What, Halt>
    ensures { Refines what_view (whole.compounded (env_view env.now) line (mark_number mark) (source.expr a.now)
        (source.expr b.now)) result }
{
    let x = typed(env, a)?;
    let old = read(env, line, &x)?;
    let y = typed(env, b)?;
    updated(env.alloc, &env.types, line, operator_of(mark), x, old, y)
}

/// An assignment by its mark, where a call may stand right of `=` or not.
pub(crate) fn assignment(
    env: &Env,
    may_call: bool,
    line: u32,
    mark: Mark,
    a: &ExprTree,
    b: &ExprTree,
) -> Result<What, Halt>
    ensures { Refines what_view (rule.assignment (env_view env.now) may_call line (mark_number mark) (source.expr a.now)
        (source.expr b.now)) result }
{
    match mark {
        Mark::Equal => plainly_assigned(env, may_call, line, a, b),
        _ => compoundly_assigned(env, line, mark, a, b),
    }
}

/// `+= 1` or `-= 1`, by the mark of the assignment.
pub(crate) fn stepped(env: &Env, line: u32, mark: Mark, a: &ExprTree) -> Result<What, Halt>
    ensures { Refines what_view (whole.stepped (env_view env.now) line (mark_number mark) (source.expr a.now)) result }
{
    let x = typed(env, a)?;
    let old = read(env, line, &x)?;
    let one = Value::int(Expr::Const(IntType::I32, 1), IntType::I32);
    updated(
        env.alloc,
        &env.types,
        line,
        operator_of(mark),
        x,
        old,
        Operand::Value(one),
    )
}
