//! Comparisons.

ghost use Rattle.std.specs.Prelude.{◌≡◌, IfOk, true};
ghost use Rattle.ep_typing.specs.Operators as rule;
ghost use Rattle.ep_typing.specs.Results.{at};
ghost use Rattle.ep_operands.specs.Refinement.{Refines};
ghost use Rattle.ep_operands.specs.View as view;

use ep_ast::{Halt, RefusalKind};
use ep_core::tree::Expr;
use ep_int::{Cmp, IntType};
use ep_operands::pairs::{
    are_foreign, are_integers, are_mixed, are_scalars, common_type, is_null_either,
};
use ep_operands::{Value, bare, converted, refused};
use std::alloc::{AllocError, Global};

fn compared(alloc: Global, how: Cmp, a: Value, b: Value) -> Result<Value, AllocError>
    requires { rule.are_integers (view.value a) (view.value b) ≡ true }
    ensures { IfOk result (λ v. view.value v ≡ rule.compared how (view.value a) (view.value b)) }
{
    let t = common_type(&a, &b);
    let left = converted(alloc, t, a)?;
    let left = Box::new(alloc, left)?;
    let right = converted(alloc, t, b)?;
    let right = Box::new(alloc, right)?;
    Ok(Value::int(Expr::Compare(how, t, left, right), IntType::I32))
}

fn pointers_compared(alloc: Global, how: Cmp, a: Value, b: Value) -> Result<Value, AllocError>
    ensures { IfOk result (λ v. view.value v ≡ rule.pointers_compared how (view.value a) (view.value b)) }
{
    let left = Box::new(alloc, bare(a))?;
    let right = Box::new(alloc, bare(b))?;
    Ok(Value::int(Expr::PtrCompare(how, left, right), IntType::I32))
}

// `<`, `>`, `<=` and `>=`: two integers, or two pointers of one type, of which null is none.
/// `<`, `>`, `<=` and `>=` of two operands (C11 6.5.8).
#[tactic(auto, unfolding(ep_typing::specs::Operators::ordered))]
pub fn ordered(alloc: Global, line: u32, how: Cmp, a: Value, b: Value) -> Result<Value, Halt>
    ensures { Refines view.value (at line (rule.ordered how (view.value a) (view.value b))) result }
{
    if are_integers(&a, &b) {
        let value = compared(alloc, how, a, b)?;
        return Ok(value);
    }
    if !are_scalars(&a, &b) {
        return Err(refused(RefusalKind::TypeMismatch, line));
    }
    if is_null_either(&a, &b) {
        return Err(refused(RefusalKind::TypeMismatch, line));
    }
    if are_mixed(&a, &b) {
        return Err(refused(RefusalKind::PointerToInteger, line));
    }
    if a.ty == b.ty {
        let value = pointers_compared(alloc, how, a, b)?;
        return Ok(value);
    }
    Err(refused(RefusalKind::IncompatiblePointers, line))
}

// `==` and `!=`: two integers, or two pointers of one type, or one of them null or to void.
/// `==` and `!=` of two operands (C11 6.5.9).
#[tactic(auto, unfolding(ep_typing::specs::Operators::equated))]
pub fn equated(alloc: Global, line: u32, how: Cmp, a: Value, b: Value) -> Result<Value, Halt>
    ensures { Refines view.value (at line (rule.equated how (view.value a) (view.value b))) result }
{
    if are_integers(&a, &b) {
        let value = compared(alloc, how, a, b)?;
        return Ok(value);
    }
    if !are_scalars(&a, &b) {
        return Err(refused(RefusalKind::TypeMismatch, line));
    }
    if are_mixed(&a, &b) {
        return Err(refused(RefusalKind::PointerToInteger, line));
    }
    if are_foreign(&a, &b) {
        return Err(refused(RefusalKind::IncompatiblePointers, line));
    }
    let value = pointers_compared(alloc, how, a, b)?;
    Ok(value)
}
