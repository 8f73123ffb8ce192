//! The value of an operator, and comparisons.

ghost use Rattle.std.specs.Prelude.{◌≡◌, true};
ghost use Rattle.ep_int.specs.Types.{InRange};
ghost use Rattle.ep_int.specs.Arith.{IsRightOperand, arith_of};
ghost use Rattle.ep_bit_domain.specs.KnownBits.{is_one, number_of, amount_of, right_operand, shifted_by};
ghost use Rattle.ep_bit_domain.specs.KnownBits.{shifted_left, shifted_right, results_of, single_result};
ghost use Rattle.ep_bit_domain.specs.KnownBits.{results_between, value_of, may_compare};

use crate::{KnownBits, results};
use ep_domain::ranges::is_shift;
use ep_int::{BinOp, Cmp, IntType, arith, bits, is_signed};

fn right_operand(op: BinOp, t: IntType, y: &KnownBits) -> Option<KnownBits>
    ensures { result ≡ right_operand op t y.now }
{
    if is_shift(op) {
        Some(*y)
    } else {
        results::in_type(t, y)
    }
}

pub(crate) fn value(op: BinOp, t: IntType, x: &KnownBits, y: &KnownBits) -> Option<KnownBits>
    ensures { result ≡ value_of op t x.now y.now }
{
    let left = results::in_type(t, x)?;
    let right = right_operand(op, t, y)?;
    results(op, t, &left, &right)
}

// Single numbers by arithmetic, others by their bits.
fn results(op: BinOp, t: IntType, x: &KnownBits, y: &KnownBits) -> Option<KnownBits>
    requires left { is_one x.now ≡ true → InRange t (number_of x.now) }
    requires right { is_one y.now ≡ true → IsRightOperand op t (number_of y.now) }
    ensures { result ≡ results_between op t x.now y.now }
{
    if x.is_one() && y.is_one() {
        single_result(op, t, x.number_of(), y.number_of())
    } else {
        results_of(op, t, x, y)
    }
}

fn single_result(op: BinOp, t: IntType, x: i128, y: i128) -> Option<KnownBits>
    requires left { InRange t x }
    requires right { IsRightOperand op t y }
    ensures { result ≡ single_result (arith_of op t x y) }
{
    match arith(op, t, x, y) {
        Ok(v) => Some(KnownBits::exactly(v)),
        Err(_) => None,
    }
}

// The results of operands that are not both one number.
fn results_of(op: BinOp, t: IntType, x: &KnownBits, y: &KnownBits) -> Option<KnownBits>
    ensures { result ≡ results_of op t x.now y.now }
{
    match op {
        BinOp::Add | BinOp::Sub | BinOp::Mul => results::by_low_bits(op, t, x, y),
        BinOp::Div | BinOp::Rem => Some(KnownBits::of_type(t)),
        BinOp::And => results::both(x, y),
        BinOp::Or => results::either(x, y),
        BinOp::Xor => results::one(x, y),
        BinOp::Shl => shifted_left(t, x, y),
        BinOp::Shr => shifted_right(t, x, y),
    }
}

// The amount of a shift of the type, where the number is one.
fn amount(t: IntType, y: i128) -> Option<u32>
    ensures { result ≡ amount_of t y }
{
    if 0 <= y && y < i128::from(bits(t)) {
        Some(y as u32)
    } else {
        None
    }
}

fn shifted_left(t: IntType, x: &KnownBits, y: &KnownBits) -> Option<KnownBits>
    ensures { result ≡ shifted_by t y.now (shifted_left t x.now) }
{
    if !y.is_one() {
        return Some(KnownBits::of_type(t));
    }
    let n = amount(t, y.number_of())?;
    if is_signed(t) {
        Some(KnownBits::of_type(t))
    } else {
        results::left_by(t, n, x)
    }
}

fn shifted_right(t: IntType, x: &KnownBits, y: &KnownBits) -> Option<KnownBits>
    ensures { result ≡ shifted_by t y.now (shifted_right x.now) }
{
    if !y.is_one() {
        return Some(KnownBits::of_type(t));
    }
    let n = amount(t, y.number_of())?;
    results::right_by(n, x)
}

// Whether some numbers of two ranges compare so.
pub(crate) fn may_compare(c: Cmp, x: (i128, i128), y: (i128, i128)) -> bool
    ensures { result ≡ may_compare c x y }
{
    match c {
        Cmp::Eq => x.0 <= y.1 && y.0 <= x.1,
        Cmp::Ne => x.0 < y.1 || y.0 < x.1,
        Cmp::Lt => x.0 < y.1,
        Cmp::Le => x.0 <= y.1,
        Cmp::Gt => y.0 < x.1,
        Cmp::Ge => y.0 <= x.1,
    }
}
