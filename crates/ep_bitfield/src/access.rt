//! The statements that read and write a bit-field.

ghost use Rattle.std.specs.Prelude.{◌≡◌, ◌-◌, ◌*◌, ◌+◌, ◌^◌, ◌≤◌, IsTrue, IfOk};
ghost use Rattle.ep_int.specs.declared.types.IntType.TheVariants.{U32};
ghost use Rattle.ep_int.specs.declared.types.Order.TheVariants.{Big};
ghost use Rattle.ep_int.specs.declared.types.Scalar.TheVariants.{Int};
ghost use Rattle.ep_core.specs.Program as core;
ghost use Rattle.ep_core.specs.View.{dest_view, expr_view, place_view, stmts_view, what_view};
ghost use Rattle.ep_bitfield.specs.Bits.{is_field};
ghost use Rattle.ep_bitfield.specs.Accesses as rule;
ghost use Rattle.ep_bitfield.specs.Accesses.{Does};

use crate::field::Field;
use ep_core::tree::{Dest, Expr, Place, Stmt, What};
use ep_int::{BinOp, IntType, Memory, Order, Scalar, bits};
use ep_operands::{copy_expr, copy_place};
use std::alloc::{AllocError, Global};

fn number(n: u64) -> Expr
    ensures { expr_view result ≡ rule.number n }
{
    Expr::Const(IntType::U32, i128::from(n))
}

fn ones(count: u32) -> u64
    requires { count ≤ 32 }
    ensures { result ≡ rule.ones count }
{
    (1 << count) - 1
}

// All bits of 32 but those of a field that lies so many bits from the lowest.
fn ones_beside(width: u32, shift: u32) -> u64
    requires { shift + width ≤ 32 }
    ensures { result ≡ rule.ones_beside width shift }
{
    ones(32) - (ones(width) << shift)
}

// How far a field lies from the lowest bit where the bits are used from the highest on.
fn from_highest(f: Field) -> u32
    requires { IsTrue (is_field f) }
    ensures { result ≡ rule.from_highest f }
{
    bits(f.t) - f.used - f.width
}

fn binary(alloc: Global, op: BinOp, left: Expr, right: Expr) -> Result<Expr, AllocError>
    ensures { IfOk result (λ e. expr_view e ≡ core.binary op U32 (expr_view left) (expr_view right)) }
{
    let left = Box::new(alloc, left)?;
    let right = Box::new(alloc, right)?;
    Ok(Expr::Bin(op, IntType::U32, left, right))
}

fn converted(alloc: Global, t: IntType, e: Expr) -> Result<Expr, AllocError>
    ensures { IfOk result (λ r. expr_view r ≡ core.convert t (expr_view e)) }
{
    let e = Box::new(alloc, e)?;
    Ok(Expr::Convert(t, e))
}

fn unit_number(alloc: Global, unit: &Place, t: IntType) -> Result<Expr, AllocError>
    ensures { IfOk result (λ e. expr_view e ≡ rule.unit_number (place_view unit.now) t) }
{
    let unit = copy_place(alloc, unit)?;
    let unit = Box::new(alloc, unit)?;
    converted(alloc, IntType::U32, Expr::Load(Scalar::Int(t), unit))
}

// A field that lies so many bits from the lowest.
fn field_number(alloc: Global, unit: &Place, f: Field, shift: u32) -> Result<Expr, AllocError>
    requires { f.width ≤ 32 }
    ensures { IfOk result (λ e. expr_view e ≡ rule.field_number (place_view unit.now) f shift) }
{
    let whole = unit_number(alloc, unit, f.t)?;
    let moved = binary(alloc, BinOp::Shr, whole, number(u64::from(shift)))?;
    binary(alloc, BinOp::And, moved, number(ones(f.width)))
}

// The unit with a value in a field that lies so many bits from the lowest.
fn new_number(
    alloc: Global,
    unit: &Place,
    f: Field,
    new: &Expr,
    shift: u32,
) -> Result<Expr, AllocError>
    requires { shift + f.width ≤ 32 }
    ensures { IfOk result (λ e. expr_view e ≡ rule.new_number (place_view unit.now) f (expr_view new.now) shift) }
{
    let whole = unit_number(alloc, unit, f.t)?;
    let others = binary(
        alloc,
        BinOp::And,
        whole,
        number(ones_beside(f.width, shift)),
    )?;
    let new = copy_expr(alloc, new)?;
    let new = converted(alloc, IntType::U32, new)?;
    let cut = binary(alloc, BinOp::And, new, number(ones(f.width)))?;
    let moved = binary(alloc, BinOp::Shl, cut, number(u64::from(shift)))?;
    binary(alloc, BinOp::Or, others, moved)
}

fn as_scalar(alloc: Global, what: Scalar, e: Expr) -> Result<Expr, AllocError>
    ensures { IfOk result (λ r. expr_view r ≡ rule.as_scalar what (expr_view e)) }
{
    match what {
        Scalar::Int(t) => converted(alloc, t, e),
        Scalar::Pointer => Ok(e),
    }
}

// The value of an expression is converted and stored.
fn assigned(
    alloc: Global,
    line: u32,
    what: Scalar,
    to: &Place,
    e: Expr,
) -> Result<Vec<Stmt>, AllocError>
    ensures { IfOk result (λ ss. stmts_view ss.items ≡ rule.assigned line what (place_view to.now) (expr_view e)) }
{
    let to = copy_place(alloc, to)?;
    let e = as_scalar(alloc, what, e)?;
    let mut list = Vec::with_capacity(alloc, 1)?;
    list.push(Stmt {
        line,
        what: What::Assign(what, to, e),
    })?;
    Ok(list)
}

fn read_at(
    alloc: Global,
    line: u32,
    unit: &Place,
    f: Field,
    shift: u32,
    to: &Dest,
) -> Result<Vec<Stmt>, AllocError>
    requires { f.width ≤ 32 }
    ensures { IfOk result (λ ss. stmts_view ss.items ≡ rule.assigned line to.now.what (place_view to.now.place)
        (rule.field_number (place_view unit.now) f shift)) }
{
    let number = field_number(alloc, unit, f, shift)?;
    assigned(alloc, line, to.what, &to.place, number)
}

fn written_at(
    alloc: Global,
    line: u32,
    unit: &Place,
    f: Field,
    shift: u32,
    new: &Expr,
) -> Result<Vec<Stmt>, AllocError>
    requires { shift + f.width ≤ 32 }
    ensures { IfOk result (λ ss. stmts_view ss.items ≡ rule.assigned line (Int f.t) (place_view unit.now)
        (rule.new_number (place_view unit.now) f (expr_view new.now) shift)) }
{
    let number = new_number(alloc, unit, f, new, shift)?;
    assigned(alloc, line, Scalar::Int(f.t), unit, number)
}

fn by_order(high: Vec<Stmt>, low: Vec<Stmt>) -> What
    ensures { what_view result ≡ core.by_order Big (stmts_view high.items) (stmts_view low.items) }
{
    What::ByOrder(Order::Big, high, low)
}

fn reading(alloc: Global, line: u32, unit: &Place, f: Field, to: &Dest) -> Result<What, AllocError>
    requires { IsTrue (is_field f) }
    ensures { IfOk result (λ w. what_view w ≡ rule.reading line (place_view unit.now) f (dest_view to.now)) }
{
    let high = read_at(alloc, line, unit, f, from_highest(f), to)?;
    let low = read_at(alloc, line, unit, f, f.used, to)?;
    Ok(by_order(high, low))
}

fn writing(
    alloc: Global,
    line: u32,
    unit: &Place,
    f: Field,
    value: &Expr,
) -> Result<What, AllocError>
    requires { IsTrue (is_field f) }
    ensures { IfOk result (λ w. what_view w ≡ rule.writing line (place_view unit.now) f (expr_view value.now)) }
{
    let high = written_at(alloc, line, unit, f, from_highest(f), value)?;
    let low = written_at(alloc, line, unit, f, f.used, value)?;
    Ok(by_order(high, low))
}

/// The statement that reads a bit-field of a unit to a place.
pub fn get(alloc: Global, line: u32, unit: Place, f: Field, to: Dest) -> Result<Stmt, Memory>
    requires { IsTrue (is_field f) }
    ensures line { IfOk result (λ s. s.line ≡ line) }
    ensures is { IfOk result (λ s. what_view s.what ≡ rule.reading line (place_view unit) f (dest_view to)) }
    ensures does { IfOk result
        (λ s. Does line (what_view s.what) (λ o p. rule.gets o p line (place_view unit) f (dest_view to))) }
{
    let what = reading(alloc, line, &unit, f, &to).map_err(|_| Memory)?;
    Ok(Stmt { line, what })
}

/// The statement that writes a value to a bit-field of a unit.
pub fn set(alloc: Global, line: u32, unit: Place, f: Field, value: Expr) -> Result<Stmt, Memory>
    requires { IsTrue (is_field f) }
    ensures line { IfOk result (λ s. s.line ≡ line) }
    ensures is { IfOk result (λ s. what_view s.what ≡ rule.writing line (place_view unit) f (expr_view value)) }
    ensures does { IfOk result
        (λ s. Does line (what_view s.what) (λ o p. rule.sets o p line (place_view unit) f (expr_view value))) }
{
    let what = writing(alloc, line, &unit, f, &value).map_err(|_| Memory)?;
    Ok(Stmt { line, what })
}
