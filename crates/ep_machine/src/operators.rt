//! What operators give.

ghost use Rattle.std.specs.Prelude.{◌≡◌, ◌+ℤ◌, pos};
ghost use Rattle.ep_int.specs.Arith.{arith_of, compares, IsOfSomeType, IsRightOperand};
ghost use Rattle.ep_int.specs.Types.{InRange};
ghost use Rattle.ep_bytes.specs.View.{value_in};
ghost use Rattle.ep_core.specs.Exec.{
  distance,
  element_at,
  is_same_pointer,
  is_true as truth_of,
  ordered,
  place_in,
  pointers_compare,
  result_of,
  truth,
};
ghost use Rattle.ep_machine.specs.Faults.{found_by, IsWithinReach};
ghost use Rattle.ep_machine.specs.Settings.{size_on};

use crate::fault::Fault;
use crate::reads::size_of_block;
use crate::setting::Setting;
use ep_bytes::Datum;
use ep_int::{BinOp, Cmp, IntType, Undef, arith};

/// Whether a value is true: a number that isn't zero, or a pointer that isn't null.
pub fn is_true(v: Datum) -> bool
    ensures { result ≡ truth_of (value_in v) }
{
    match v {
        Datum::Int(n) => n != 0,
        Datum::Null => false,
        Datum::Pointer(_, _) => true,
    }
}

/// The int that a truth is.
pub fn truth(t: bool) -> Datum
    ensures { found_by (Ok result) ≡ truth t }
{
    Datum::Int(if t { 1 } else { 0 })
}

/// What an operator gives.
pub fn computed(op: BinOp, t: IntType, x: i128, y: i128) -> Result<Datum, Fault>
    requires left { InRange t x }
    requires right { IsRightOperand op t y }
    ensures { found_by result ≡ result_of (arith_of op t x y) }
{
    match arith(op, t, x, y) {
        Ok(v) => Ok(Datum::Int(v)),
        Err(Undef::Overflow) => Err(Fault::Overflow),
        Err(Undef::Division) => Err(Fault::Division),
        Err(Undef::Shift) => Err(Fault::Shift),
    }
}

/// Whether two numbers compare so.
pub fn compares(c: Cmp, x: i128, y: i128) -> bool
    ensures { result ≡ compares c x y }
{
    match c {
        Cmp::Eq => x == y,
        Cmp::Ne => x != y,
        Cmp::Lt => x < y,
        Cmp::Le => x <= y,
        Cmp::Gt => x > y,
        Cmp::Ge => x >= y,
    }
}

fn is_same_pointer(v: Datum, w: Datum) -> bool
    ensures { result ≡ is_same_pointer (value_in v) (value_in w) }
{
    match v {
        Datum::Int(_) => false,
        Datum::Null => match w {
            Datum::Int(_) => false,
            Datum::Null => true,
            Datum::Pointer(_, _) => false,
        },
        Datum::Pointer(b, q) => match w {
            Datum::Int(_) => false,
            Datum::Null => false,
            Datum::Pointer(c, r) => b == c && q == r,
        },
    }
}

// Two pointers into one block have the order of their offsets.
fn ordered(c: Cmp, v: Datum, w: Datum) -> Result<Datum, Fault>
    ensures { found_by result ≡ ordered (compares c) (value_in v) (value_in w) }
{
    match v {
        Datum::Int(_) => Err(Fault::PointerMix),
        Datum::Null => Err(Fault::PointerMix),
        Datum::Pointer(b, q) => match w {
            Datum::Int(_) => Err(Fault::PointerMix),
            Datum::Null => Err(Fault::PointerMix),
            Datum::Pointer(d, r) => {
                if b != d {
                    return Err(Fault::PointerMix);
                }
                Ok(truth(compares(c, i128::from(q), i128::from(r))))
            }
        },
    }
}

/// Whether two pointers compare so.
pub fn pointers_compare(c: Cmp, v: Datum, w: Datum) -> Result<Datum, Fault>
    ensures { found_by result ≡ pointers_compare c (value_in v) (value_in w) }
{
    match c {
        Cmp::Eq => Ok(truth(is_same_pointer(v, w))),
        Cmp::Ne => Ok(truth(!is_same_pointer(v, w))),
        Cmp::Lt => ordered(c, v, w),
        Cmp::Le => ordered(c, v, w),
        Cmp::Gt => ordered(c, v, w),
        Cmp::Ge => ordered(c, v, w),
    }
}

/// So many units of so many bytes, forwards or backwards.
pub fn distance(unit: u32, n: i128, backwards: bool) -> i128
    requires { IsOfSomeType n }
    ensures value { result ≡ distance unit n backwards }
    ensures within { IsWithinReach result }
{
    let by = n * i128::from(unit);
    if backwards { 0 - by } else { by }
}

/// A place so many bytes further on or back, within its block.
pub fn moved(on: &Setting, block: u32, here: u32, by: i128) -> Result<Datum, Fault>
    requires { IsWithinReach by }
    ensures { found_by result ≡ place_in (size_on on.now block) block (pos here +ℤ by) }
{
    let at = i128::from(here) + by;
    if at < 0 || at > i128::from(size_of_block(on, block)) {
        return Err(Fault::Bounds);
    }
    Ok(Datum::Pointer(block, at as u32))
}

/// The place of an element of an array in place.
pub fn element(block: u32, here: u32, bound: u32, unit: u32, index: i128) -> Result<Datum, Fault>
    ensures { found_by result ≡ element_at block here bound unit index }
{
    if index < 0 || index >= i128::from(bound) {
        return Err(Fault::Bounds);
    }
    let at = i128::from(here) + index * i128::from(unit);
    if at > i128::from(u32::MAX) {
        return Err(Fault::Bounds);
    }
    Ok(Datum::Pointer(block, at as u32))
}
