//! One of two values.

ghost use Rattle.std.specs.Prelude.{◌≡◌, IfOk, true};
ghost use Rattle.ep_core.specs.View.{expr_view};
ghost use Rattle.ep_typing.specs.Types.{is_pointer};
ghost use Rattle.ep_typing.specs.Operators as rule;
ghost use Rattle.ep_typing.specs.Results.{at};
ghost use Rattle.ep_operands.specs.Numbers.{IsSomeNumber};
ghost use Rattle.ep_operands.specs.Refinement.{Refines};
ghost use Rattle.ep_operands.specs.View as view;

use ep_ast::{Halt, RefusalKind};
use ep_core::tree::Expr;
use ep_operands::pairs::{are_foreign, are_integers, are_mixed, are_scalars, common_type};
use ep_operands::{
    Value, as_pointer, converted, is_scalar, is_void_pointer, refused, void_pointer,
};
use ep_typing::CType;
use std::alloc::{AllocError, Global};

fn numbers_chosen(alloc: Global, test: Expr, a: Value, b: Value) -> Result<Value, AllocError>
    requires test { IsSomeNumber (expr_view test) }
    requires numbers { rule.are_integers (view.value a) (view.value b) ≡ true }
    ensures { IfOk result (λ v. view.value v ≡ rule.numbers_chosen (expr_view test) (view.value a) (view.value b)) }
{
    let t = common_type(&a, &b);
    let test = Box::new(alloc, test)?;
    let yes = converted(alloc, t, a)?;
    let yes = Box::new(alloc, yes)?;
    let no = converted(alloc, t, b)?;
    let no = Box::new(alloc, no)?;
    Ok(Value::int(Expr::Cond(test, yes, no), t))
}

// The type of a pointer that is one of two.
fn chosen_type(a: &Value, b: &Value) -> CType
    ensures { result ≡ rule.chosen_type (view.value a.now) (view.value b.now) }
{
    if a.is_null & b.is_null {
        return void_pointer();
    }
    if a.is_null {
        return b.ty;
    }
    if b.is_null {
        return a.ty;
    }
    if is_void_pointer(b.ty) {
        return b.ty;
    }
    a.ty
}

fn pointers_chosen(alloc: Global, test: Expr, a: Value, b: Value) -> Result<Value, AllocError>
    requires test { IsSomeNumber (expr_view test) }
    requires pointer { is_pointer (rule.chosen_type (view.value a) (view.value b)) ≡ true }
    ensures { IfOk result (λ v. view.value v ≡ rule.pointers_chosen (expr_view test) (view.value a) (view.value b)) }
{
    let c = chosen_type(&a, &b);
    let test = Box::new(alloc, test)?;
    let yes = as_pointer(alloc, c, a)?;
    let yes = Box::new(alloc, yes)?;
    let no = as_pointer(alloc, c, b)?;
    let no = Box::new(alloc, no)?;
    Ok(Value::unknown(Expr::Cond(test, yes, no), c))
}

/// `? :`: two integers, or two pointers by the rule of `==`.
#[tactic(auto, unfolding(ep_typing::specs::Operators::chosen))]
pub fn chosen(alloc: Global, line: u32, test: Value, a: Value, b: Value) -> Result<Value, Halt>
    ensures { Refines view.value (at line (rule.chosen (view.value test) (view.value a) (view.value b))) result }
{
    if !(is_scalar(test.ty) & are_scalars(&a, &b)) {
        return Err(refused(RefusalKind::TypeMismatch, line));
    }
    if are_integers(&a, &b) {
        let value = numbers_chosen(alloc, test.expr, a, b)?;
        return Ok(value);
    }
    if are_mixed(&a, &b) {
        return Err(refused(RefusalKind::PointerToInteger, line));
    }
    if are_foreign(&a, &b) {
        return Err(refused(RefusalKind::IncompatiblePointers, line));
    }
    let value = pointers_chosen(alloc, test.expr, a, b)?;
    Ok(value)
}
