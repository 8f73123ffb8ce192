//! Operators of one operand.

ghost use Rattle.std.specs.Prelude.{◌≡◌, ◌==◌, IfOk, true};
ghost use Rattle.ep_ast.specs.Mark.{mark_number};
ghost use Rattle.ep_core.specs.View.{expr_view};
ghost use Rattle.ep_core.specs.View.{place_view};
ghost use Rattle.ep_typing.specs.Types.{is_integer};
ghost use Rattle.ep_typing.specs.Operators as rule;
ghost use Rattle.ep_typing.specs.Parts as parts;
ghost use Rattle.ep_typing.specs.Results.{at};
ghost use Rattle.ep_operands.specs.Refinement.{Refines};
ghost use Rattle.ep_operands.specs.View as view;

use crate::pointers::pointed;
use ep_ast::{Halt, Mark, RefusalKind};
use ep_core::tree::{Expr, Place};
use ep_int::{BinOp, IntType, wrap};
use ep_layout::Types;
use ep_operands::{
    Operand, Value, is_integer, is_scalar, pointer_to, promoted_type, promoted_value, refused,
    value_of,
};
use std::alloc::{AllocError, Global};

/// Whether two marks are the same.
pub fn is_mark(mark: Mark, other: Mark) -> bool
    ensures { result ≡ (mark_number mark == mark_number other) }
{
    mark == other
}

// `+`: a promoted integer.
#[tactic(auto, unfolding(ep_typing::specs::Operators::kept))]
fn kept(alloc: Global, line: u32, a: Value) -> Result<Value, Halt>
    ensures { Refines view.value (at line (rule.kept (view.value a))) result }
{
    if is_integer(a.ty) {
        let t = promoted_type(&a);
        let expr = promoted_value(alloc, a)?;
        return Ok(Value::int(expr, t));
    }
    Err(refused(RefusalKind::TypeMismatch, line))
}

fn opposite_expr(alloc: Global, a: Value) -> Result<Expr, AllocError>
    ensures { IfOk result (λ e. expr_view e ≡ (rule.opposite (view.value a)).expr) }
{
    let t = promoted_type(&a);
    let zero = Box::new(alloc, Expr::Const(t, 0))?;
    let expr = promoted_value(alloc, a)?;
    let expr = Box::new(alloc, expr)?;
    Ok(Expr::Bin(BinOp::Sub, t, zero, expr))
}

fn opposite(alloc: Global, a: Value) -> Result<Value, AllocError>
    requires { is_integer a.ty ≡ true }
    ensures { IfOk result (λ v. view.value v ≡ rule.opposite (view.value a)) }
{
    let t = promoted_type(&a);
    let expr = opposite_expr(alloc, a)?;
    Ok(Value::int(expr, t))
}

// `-`: what is left of 0.
#[tactic(auto, unfolding(ep_typing::specs::Operators::negated))]
fn negated(alloc: Global, line: u32, a: Value) -> Result<Value, Halt>
    ensures { Refines view.value (at line (rule.negated (view.value a))) result }
{
    if is_integer(a.ty) {
        let value = opposite(alloc, a)?;
        return Ok(value);
    }
    Err(refused(RefusalKind::TypeMismatch, line))
}

fn turned_expr(alloc: Global, a: Value) -> Result<Expr, AllocError>
    ensures { IfOk result (λ e. expr_view e ≡ (rule.turned (view.value a)).expr) }
{
    let t = promoted_type(&a);
    let expr = promoted_value(alloc, a)?;
    let expr = Box::new(alloc, expr)?;
    let ones = Box::new(alloc, Expr::Const(t, wrap(t, -1)))?;
    Ok(Expr::Bin(BinOp::Xor, t, expr, ones))
}

fn turned(alloc: Global, a: Value) -> Result<Value, AllocError>
    requires { is_integer a.ty ≡ true }
    ensures { IfOk result (λ v. view.value v ≡ rule.turned (view.value a)) }
{
    let t = promoted_type(&a);
    let expr = turned_expr(alloc, a)?;
    Ok(Value::int(expr, t))
}

// `~`: all bits turned.
#[tactic(auto, unfolding(ep_typing::specs::Operators::complemented))]
fn complemented(alloc: Global, line: u32, a: Value) -> Result<Value, Halt>
    ensures { Refines view.value (at line (rule.complemented (view.value a))) result }
{
    if is_integer(a.ty) {
        let value = turned(alloc, a)?;
        return Ok(value);
    }
    Err(refused(RefusalKind::TypeMismatch, line))
}

// `!`.
#[tactic(auto, unfolding(ep_typing::specs::Operators::denied))]
fn denied(alloc: Global, line: u32, a: Value) -> Result<Value, Halt>
    ensures { Refines view.value (at line (rule.denied (view.value a))) result }
{
    if is_scalar(a.ty) {
        let expr = Box::new(alloc, a.expr)?;
        return Ok(Value::int(Expr::Not(expr), IntType::I32));
    }
    Err(refused(RefusalKind::TypeMismatch, line))
}

/// `+`, `-`, `~` or `!` of one value, by its mark.
#[tactic(auto, unfolding(ep_typing::specs::Operators::unary_operated))]
fn unary_operated(alloc: Global, line: u32, mark: Mark, a: Value) -> Result<Value, Halt>
    ensures { Refines view.value (at line (rule.unary_operated (mark_number mark) (view.value a))) result }
{
    if is_mark(mark, Mark::Plus) {
        return kept(alloc, line, a);
    }
    if is_mark(mark, Mark::Minus) {
        return negated(alloc, line, a);
    }
    if is_mark(mark, Mark::Tilde) {
        return complemented(alloc, line, a);
    }
    denied(alloc, line, a)
}

fn address_of(alloc: Global, place: Place) -> Result<Expr, AllocError>
    ensures { IfOk result (λ e. expr_view e ≡ parts.address_of (place_view place)) }
{
    match place {
        Place::Block(b) => {
            let place = Box::new(alloc, Place::Block(b))?;
            Ok(Expr::AddrOf(place))
        }
        Place::Deref(pointer) => {
            let place = Box::new(alloc, Place::Deref(pointer))?;
            Ok(Expr::AddrOf(place))
        }
        Place::Member(whole, offset) => {
            let place = Box::new(alloc, Place::Member(whole, offset))?;
            Ok(Expr::AddrOf(place))
        }
        Place::Element(array, _, unit, index) => {
            let start = Box::new(alloc, Expr::AddrOf(array))?;
            Ok(Expr::PtrAdd(unit, false, start, index))
        }
    }
}

// `&`.
#[tactic(auto, unfolding(ep_typing::specs::Parts::addressed))]
fn addressed(alloc: Global, line: u32, x: Operand) -> Result<Operand, Halt>
    ensures { Refines view.operand (at line (parts.addressed (view.operand x))) result }
{
    match x {
        Operand::Place(place, c) => {
            let ty = pointer_to(c)?;
            let expr = address_of(alloc, place)?;
            Ok(Operand::Value(Value::unknown(expr, ty)))
        }
        Operand::Value(_) => Err(refused(RefusalKind::NotAnLvalue, line)),
        Operand::Function(_) => Err(refused(RefusalKind::TypeMismatch, line)),
    }
}

fn unary_of_value(alloc: Global, line: u32, mark: Mark, v: Value) -> Result<Operand, Halt>
    ensures { Refines view.operand (at line (parts.unary_of_value (mark_number mark) (view.value v))) result }
{
    if is_mark(mark, Mark::Star) {
        return pointed(alloc, line, v);
    }
    let value = unary_operated(alloc, line, mark, v)?;
    Ok(Operand::Value(value))
}

/// An operator of one operand, by its mark.
#[tactic(auto, unfolding(ep_typing::specs::Parts::unary_typed))]
pub fn unary_typed(
    alloc: Global,
    types: &Types,
    line: u32,
    mark: Mark,
    x: Operand,
) -> Result<Operand, Halt>
    ensures { Refines view.operand (at line (parts.unary_typed types.now (mark_number mark) (view.operand x))) result }
{
    if is_mark(mark, Mark::Ampersand) {
        return addressed(alloc, line, x);
    }
    let value = value_of(alloc, types, line, x)?;
    unary_of_value(alloc, line, mark, value)
}
