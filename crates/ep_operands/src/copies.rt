//! Copies of expressions and places.

ghost use Rattle.std.specs.Prelude.{◌≡◌, IfOk};
ghost use Rattle.ep_core.specs.View.{expr_view, place_view};
ghost use Rattle.ep_operands.specs.View as view;

use crate::operand::Operand;
use crate::value::Value;
use ep_core::tree::{Expr, Place};
use std::alloc::{AllocError, Global};

/// The same expression again.
#[cycle(copies)]
pub fn copy_expr(alloc: Global, expr: &Expr) -> Result<Expr, AllocError>
    ensures { IfOk result (λ e. expr_view e ≡ expr_view expr.now) }
{
    match expr {
        Expr::Const(t, v) => Ok(Expr::Const(*t, *v)),
        Expr::Null => Ok(Expr::Null),
        Expr::Load(what, place) => Ok(Expr::Load(*what, boxed_place(alloc, place)?)),
        Expr::AddrOf(place) => Ok(Expr::AddrOf(boxed_place(alloc, place)?)),
        Expr::Bin(op, t, left, right) => {
            let left = boxed_expr(alloc, left)?;
            let right = boxed_expr(alloc, right)?;
            Ok(Expr::Bin(*op, *t, left, right))
        }
        Expr::Convert(t, operand) => Ok(Expr::Convert(*t, boxed_expr(alloc, operand)?)),
        Expr::Compare(how, t, left, right) => {
            let left = boxed_expr(alloc, left)?;
            let right = boxed_expr(alloc, right)?;
            Ok(Expr::Compare(*how, *t, left, right))
        }
        Expr::PtrCompare(how, left, right) => {
            let left = boxed_expr(alloc, left)?;
            let right = boxed_expr(alloc, right)?;
            Ok(Expr::PtrCompare(*how, left, right))
        }
        Expr::And(left, right) => {
            Ok(Expr::And(boxed_expr(alloc, left)?, boxed_expr(alloc, right)?))
        }
        Expr::Or(left, right) => Ok(Expr::Or(boxed_expr(alloc, left)?, boxed_expr(alloc, right)?)),
        Expr::Not(operand) => Ok(Expr::Not(boxed_expr(alloc, operand)?)),
        Expr::Cond(test, yes, no) => {
            let test = boxed_expr(alloc, test)?;
            let yes = boxed_expr(alloc, yes)?;
            let no = boxed_expr(alloc, no)?;
            Ok(Expr::Cond(test, yes, no))
        }
        Expr::PtrAdd(unit, backwards, pointer, count) => {
            let pointer = boxed_expr(alloc, pointer)?;
            let count = boxed_expr(alloc, count)?;
            Ok(Expr::PtrAdd(*unit, *backwards, pointer, count))
        }
        Expr::Cast(operand) => Ok(Expr::Cast(boxed_expr(alloc, operand)?)),
    }
}

/// The same place again.
#[cycle(copies)]
pub fn copy_place(alloc: Global, place: &Place) -> Result<Place, AllocError>
    ensures { IfOk result (λ p. place_view p ≡ place_view place.now) }
{
    match place {
        Place::Block(b) => Ok(Place::Block(*b)),
        Place::Deref(pointer) => Ok(Place::Deref(boxed_expr(alloc, pointer)?)),
        Place::Member(whole, offset) => Ok(Place::Member(boxed_place(alloc, whole)?, *offset)),
        Place::Element(array, bound, unit, index) => {
            let array = boxed_place(alloc, array)?;
            let index = boxed_expr(alloc, index)?;
            Ok(Place::Element(array, *bound, *unit, index))
        }
    }
}

// The same expression again, in a box.
#[cycle(copies)]
fn boxed_expr(alloc: Global, expr: &Expr) -> Result<Box<Expr>, AllocError>
    ensures { IfOk result (λ e. expr_view e.value ≡ expr_view expr.now) }
{
    let expr = copy_expr(alloc, expr)?;
    let boxed = Box::new(alloc, expr)?;
    Ok(boxed)
}

// The same place again, in a box.
#[cycle(copies)]
fn boxed_place(alloc: Global, place: &Place) -> Result<Box<Place>, AllocError>
    ensures { IfOk result (λ p. place_view p.value ≡ place_view place.now) }
{
    let place = copy_place(alloc, place)?;
    let boxed = Box::new(alloc, place)?;
    Ok(boxed)
}

/// The same operand again.
pub fn copy_operand(alloc: Global, operand: &Operand) -> Result<Operand, AllocError>
    ensures { IfOk result (λ x. view.operand x ≡ view.operand operand.now) }
{
    match operand {
        Operand::Place(place, c) => {
            let place = copy_place(alloc, place)?;
            Ok(Operand::Place(place, *c))
        }
        Operand::Value(v) => {
            let expr = copy_expr(alloc, &v.expr)?;
            Ok(Operand::Value(Value {
                expr,
                ty: v.ty,
                is_null: v.is_null,
            }))
        }
        Operand::Function(callee) => Ok(Operand::Function(*callee)),
    }
}
