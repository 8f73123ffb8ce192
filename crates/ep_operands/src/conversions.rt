//! The value of an operand, and what a value becomes where another type is asked.

ghost use Rattle.std.specs.Prelude.{◌≡◌, IfOk};
ghost use Rattle.ep_core.specs.View.{expr_view, place_view};
ghost use Rattle.ep_typing.specs.Operand as rule;
ghost use Rattle.ep_typing.specs.Operators.{bare};
ghost use Rattle.ep_typing.specs.Results.{at};
ghost use Rattle.ep_operands.specs.Refinement.{Refines};
ghost use Rattle.ep_operands.specs.View as view;

use crate::operand::Operand;
use crate::refusals::refused;
use crate::types::{
    element_of, int_of, is_aggregate, is_array, is_integer, is_pointer, is_scalar, is_void,
    is_void_pointer, pointer_to, scalar_of,
};
use crate::value::Value;
use ep_ast::{Halt, RefusalKind};
use ep_core::tree::{Expr, Place};
use ep_int::{IntType, promote};
use ep_layout::Types;
use ep_typing::CType;
use std::alloc::{AllocError, Global};

fn loaded(alloc: Global, types: &Types, place: Place, c: CType) -> Result<Value, AllocError>
    ensures { IfOk result (λ v. view.value v ≡ rule.loaded types.now (place_view place) c) }
{
    let place = Box::new(alloc, place)?;
    if is_array(c) {
        let ty = pointer_to(element_of(types, c))?;
        return Ok(Value::unknown(Expr::AddrOf(place), ty));
    }
    if is_aggregate(c) {
        return Ok(Value::unknown(Expr::AddrOf(place), c));
    }
    Ok(Value::unknown(Expr::Load(scalar_of(c), place), c))
}

/// The value of an operand.
#[tactic(auto, unfolding(ep_typing::specs::Operand::value_of))]
pub fn value_of(alloc: Global, types: &Types, line: u32, x: Operand) -> Result<Value, Halt>
    ensures { Refines view.value (at line (rule.value_of types.now (view.operand x))) result }
{
    match x {
        Operand::Place(place, c) => {
            if is_void(c) {
                return Err(refused(RefusalKind::IncompleteType, line));
            }
            let value = loaded(alloc, types, place, c)?;
            Ok(value)
        }
        Operand::Value(value) => Ok(value),
        Operand::Function(_) => Err(refused(RefusalKind::TypeMismatch, line)),
    }
}

/// A number as of a type.
pub fn converted(alloc: Global, t: IntType, v: Value) -> Result<Expr, AllocError>
    ensures { IfOk result (λ e. expr_view e ≡ rule.converted t (view.value v)) }
{
    let own = int_of(v.ty);
    if t == own {
        return Ok(v.expr);
    }
    let expr = Box::new(alloc, v.expr)?;
    Ok(Expr::Convert(t, expr))
}

/// The type of an integer after its promotion (C11 6.3.1.1).
pub fn promoted_type(v: &Value) -> IntType
    ensures { result ≡ rule.promoted_type (view.value v.now) }
{
    promote(int_of(v.ty))
}

/// The integer, converted to its promoted type (C11 6.3.1.1).
pub fn promoted_value(alloc: Global, v: Value) -> Result<Expr, AllocError>
    ensures { IfOk result (λ e. expr_view e ≡ rule.promoted_value (view.value v)) }
{
    let t = promote(int_of(v.ty));
    converted(alloc, t, v)
}

/// A pointer, or null, as a pointer of a type.
pub fn as_pointer(alloc: Global, c: CType, v: Value) -> Result<Expr, AllocError>
    ensures { IfOk result (λ e. expr_view e ≡ rule.as_pointer c (view.value v)) }
{
    if v.is_null {
        return Ok(Expr::Null);
    }
    if c == v.ty {
        return Ok(v.expr);
    }
    let expr = Box::new(alloc, v.expr)?;
    Ok(Expr::Cast(expr))
}

/// A pointer as it is compared.
pub fn bare(v: Value) -> Expr
    ensures { expr_view result ≡ bare (view.value v) }
{
    if v.is_null { Expr::Null } else { v.expr }
}

/// A value as of a scalar type.
pub fn as_type(alloc: Global, c: CType, v: Value) -> Result<Expr, AllocError>
    ensures { IfOk result (λ e. expr_view e ≡ rule.as_type c (view.value v)) }
{
    if is_pointer(c) {
        return as_pointer(alloc, c, v);
    }
    converted(alloc, int_of(c), v)
}

/// One is a pointer, and the other an integer that is no null constant.
pub fn is_mixed(c: CType, v: &Value) -> bool
    ensures { result ≡ rule.is_mixed c (view.value v.now) }
{
    if is_pointer(c) {
        is_integer(v.ty) & !v.is_null
    } else {
        is_pointer(v.ty)
    }
}

/// Whether both types are scalar.
pub fn are_scalars(c: CType, d: CType) -> bool
    ensures { result ≡ rule.are_scalars c d }
{
    is_scalar(c) & is_scalar(d)
}

/// Of one type, or one of them a pointer to void.
pub fn are_compatible(c: CType, d: CType) -> bool
    ensures { result ≡ rule.are_compatible c d }
{
    (c == d) | is_void_pointer(c) | is_void_pointer(d)
}

fn is_foreign(c: CType, v: &Value) -> bool
    ensures { result ≡ rule.is_foreign c (view.value v.now) }
{
    is_pointer(c) & is_pointer(v.ty) & !v.is_null & !are_compatible(c, v.ty)
}

/// A value as what is asked: of a parameter, of a function's result, of an object.
#[tactic(auto, unfolding(ep_typing::specs::Operand::fitted))]
pub fn fitted(alloc: Global, line: u32, c: CType, v: Value) -> Result<Expr, Halt>
    ensures { Refines expr_view (at line (rule.fitted c (view.value v))) result }
{
    if !are_scalars(c, v.ty) {
        return Err(refused(RefusalKind::TypeMismatch, line));
    }
    if is_mixed(c, &v) {
        return Err(refused(RefusalKind::PointerToInteger, line));
    }
    if is_foreign(c, &v) {
        return Err(refused(RefusalKind::IncompatiblePointers, line));
    }
    let expr = as_type(alloc, c, v)?;
    Ok(expr)
}

/// A value as what is tested.
#[tactic(auto, unfolding(ep_typing::specs::Operand::tested))]
pub fn tested(line: u32, v: Value) -> Result<Expr, Halt>
    ensures { Refines expr_view (at line (rule.tested (view.value v))) result }
{
    if is_scalar(v.ty) {
        Ok(v.expr)
    } else {
        Err(refused(RefusalKind::TypeMismatch, line))
    }
}
