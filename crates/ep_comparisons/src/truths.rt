//! Truths that are joined.

ghost use Rattle.std.specs.Prelude.{◌≡◌};
ghost use Rattle.ep_typing.specs.Operators as rule;
ghost use Rattle.ep_typing.specs.Results.{at};
ghost use Rattle.ep_operands.specs.Refinement.{Refines};
ghost use Rattle.ep_operands.specs.View as view;

use ep_ast::{Halt, RefusalKind};
use ep_core::tree::Expr;
use ep_int::IntType;
use ep_operands::pairs::are_scalars;
use ep_operands::{Value, refused};
use std::alloc::Global;

/// `&&` of two scalars (C11 6.5.13).
#[tactic(auto, unfolding(ep_typing::specs::Operators::both))]
pub fn both(alloc: Global, line: u32, a: Value, b: Value) -> Result<Value, Halt>
    ensures { Refines view.value (at line (rule.both (view.value a) (view.value b))) result }
{
    if are_scalars(&a, &b) {
        let left = Box::new(alloc, a.expr)?;
        let right = Box::new(alloc, b.expr)?;
        return Ok(Value::int(Expr::And(left, right), IntType::I32));
    }
    Err(refused(RefusalKind::TypeMismatch, line))
}

/// `||` of two scalars (C11 6.5.14).
#[tactic(auto, unfolding(ep_typing::specs::Operators::either))]
pub fn either(alloc: Global, line: u32, a: Value, b: Value) -> Result<Value, Halt>
    ensures { Refines view.value (at line (rule.either (view.value a) (view.value b))) result }
{
    if are_scalars(&a, &b) {
        let left = Box::new(alloc, a.expr)?;
        let right = Box::new(alloc, b.expr)?;
        return Ok(Value::int(Expr::Or(left, right), IntType::I32));
    }
    Err(refused(RefusalKind::TypeMismatch, line))
}
