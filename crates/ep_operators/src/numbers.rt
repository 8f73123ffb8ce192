//! Operators on two integers.

ghost use Rattle.std.specs.Prelude.{◌≡◌, Bool, IfOk, true};
ghost use Rattle.ep_int.specs.declared.types.IntType.{IntType as Kind};
ghost use Rattle.ep_core.specs.Program as core;
ghost use Rattle.ep_typing.specs.Operand as values;
ghost use Rattle.ep_typing.specs.Operators as rule;
ghost use Rattle.ep_typing.specs.Results.{at};
ghost use Rattle.ep_operands.specs.Numbers.{is_right, some};
ghost use Rattle.ep_operands.specs.Refinement.{Refines};
ghost use Rattle.ep_operands.specs.View as view;

use ep_ast::{Halt, RefusalKind};
use ep_core::tree::Expr;
use ep_int::BinOp;
use ep_operands::pairs::{are_integers, common_type};
use ep_operands::{Value, converted, promoted_type, promoted_value, refused};
use std::alloc::{AllocError, Global};

fn computed(alloc: Global, op: BinOp, a: Value, b: Value) -> Result<Value, AllocError>
    requires { rule.are_integers (view.value a) (view.value b) ≡ true }
    ensures { IfOk result (λ v. view.value v ≡ rule.computed op (view.value a) (view.value b)) }
{
    let t = common_type(&a, &b);
    let left = converted(alloc, t, a)?;
    let left = Box::new(alloc, left)?;
    let right = converted(alloc, t, b)?;
    let right = Box::new(alloc, right)?;
    Ok(Value::int(Expr::Bin(op, t, left, right), t))
}

// Two integers.
#[tactic(auto, unfolding(ep_typing::specs::Operators::arithmetic))]
pub(crate) fn arithmetic(
    alloc: Global,
    line: u32,
    op: BinOp,
    a: Value,
    b: Value,
) -> Result<Value, Halt>
    ensures { Refines view.value (at line (rule.arithmetic op (view.value a) (view.value b))) result }
{
    if are_integers(&a, &b) {
        let value = computed(alloc, op, a, b)?;
        return Ok(value);
    }
    Err(refused(RefusalKind::TypeMismatch, line))
}

fn shift(alloc: Global, op: BinOp, a: Value, b: Value) -> Result<Value, AllocError>
    requires shifts { (t : Kind) (test : Kind → Bool) → is_right op t test ≡ some test }
    requires integers { rule.are_integers (view.value a) (view.value b) ≡ true }
    ensures { IfOk result (λ v. view.value v
        ≡ values.int_value (core.binary op (values.promoted_type (view.value a))
        (values.promoted_value (view.value a)) (values.promoted_value (view.value b)))
        (values.promoted_type (view.value a))) }
{
    let t = promoted_type(&a);
    let left = promoted_value(alloc, a)?;
    let left = Box::new(alloc, left)?;
    let right = promoted_value(alloc, b)?;
    let right = Box::new(alloc, right)?;
    Ok(Value::int(Expr::Bin(op, t, left, right), t))
}

// Each side is promoted by itself.
#[tactic(auto, unfolding(ep_typing::specs::Operators::shifted))]
pub(crate) fn shifted(
    alloc: Global,
    line: u32,
    op: BinOp,
    a: Value,
    b: Value,
) -> Result<Value, Halt>
    requires { (t : Kind) (test : Kind → Bool) → is_right op t test ≡ some test }
    ensures { Refines view.value (at line (rule.shifted op (view.value a) (view.value b))) result }
{
    if are_integers(&a, &b) {
        let value = shift(alloc, op, a, b)?;
        return Ok(value);
    }
    Err(refused(RefusalKind::TypeMismatch, line))
}
