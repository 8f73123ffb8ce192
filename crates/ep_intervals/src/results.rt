//! What an operator gives of two intervals.

ghost use Rattle.std.specs.Prelude.{◌≡◌, ◌≢◌, ◌≤ℤ◌, ◌<◌, ◌-ℤ◌, pos, negsuc, false, FitsSigned};
ghost use Rattle.std.specs.Int.{w128};
ghost use Rattle.ep_int.specs.Types.{InRange, is_signed, wrapped};
ghost use Rattle.ep_int.specs.Arith.{IsOfSomeType, IsRightOperand, arith_of};
ghost use Rattle.ep_range_laws.specs.Ranges.{IsRange};
ghost use Rattle.ep_range_laws.specs.Faults.{shown_range};
ghost use Rattle.ep_interval_laws.specs.Results.{clipped, settled_between, quotients, hull, divided, remainders};
ghost use Rattle.ep_interval_laws.specs.Results.{whole, anded, ored, xored, ones_over, has_amount, shifted_left};
ghost use Rattle.ep_interval_laws.specs.Results.{shifted_right, single_result, results_of, results_between};
ghost use Rattle.ep_interval_laws.specs.Results.{right_operands, value_of};

use crate::{Interval, ends};
use ep_domain::ranges::{corners, is_shift, nearest_amount, power_of_two, products};
use ep_int::{BinOp, IntType, arith, bits, greatest, is_signed, least};

// The results of the numbers that arithmetic takes.
pub(crate) fn value(op: BinOp, t: IntType, x: &Interval, y: &Interval) -> Option<Interval>
    ensures { result ≡ value_of op t x.now y.now }
{
    let left = x.overlap(least(t), greatest(t))?;
    let right = right_operands(op, t, y)?;
    results(op, t, &left, &right)
}

// The right operands that arithmetic takes.
fn right_operands(op: BinOp, t: IntType, y: &Interval) -> Option<Interval>
    ensures { result ≡ right_operands op t y.now }
{
    if is_shift(op) {
        Some(*y)
    } else {
        y.overlap(least(t), greatest(t))
    }
}

// Single numbers by arithmetic, others by their ends.
fn results(op: BinOp, t: IntType, x: &Interval, y: &Interval) -> Option<Interval>
    requires left { InRange t x.now.lo × InRange t x.now.hi }
    requires right { IsRightOperand op t y.now.lo × IsRightOperand op t y.now.hi }
    ensures { result ≡ results_between op t x.now y.now }
{
    if x.is_single() && y.is_single() {
        single_result(op, t, x.lo, y.lo)
    } else {
        results_by_ends(op, t, (x.lo, x.hi), (y.lo, y.hi))
    }
}

fn single_result(op: BinOp, t: IntType, x: i128, y: i128) -> Option<Interval>
    requires left { InRange t x }
    requires right { IsRightOperand op t y }
    ensures { result ≡ single_result (arith_of op t x y) }
{
    match arith(op, t, x, y) {
        Ok(v) => Interval::between(v, v),
        Err(_) => None,
    }
}

fn results_by_ends(op: BinOp, t: IntType, x: (i128, i128), y: (i128, i128)) -> Option<Interval>
    requires left { InRange t x.0 × InRange t x.1 × x.0 ≤ℤ x.1 }
    requires right { IsRightOperand op t y.0 × IsRightOperand op t y.1 × y.0 ≤ℤ y.1 }
    ensures { result ≡ results_of op t x y }
{
    match op {
        BinOp::Add => settled(t, (x.0 + y.0, x.1 + y.1)),
        BinOp::Sub => settled(t, (x.0 - y.1, x.1 - y.0)),
        BinOp::Mul => multiplied(t, x, y),
        BinOp::Div => divided(t, x, y),
        BinOp::Rem => remainders(x, y),
        BinOp::And => anded(t, x, y),
        BinOp::Or => ored(t, x, y),
        BinOp::Xor => xored(t, x, y),
        BinOp::Shl => shifted_left(t, x, y),
        BinOp::Shr => shifted_right(t, x, y),
    }
}

// The numbers of a type that lie between two ends.
fn clipped(t: IntType, exact: (i128, i128)) -> Option<Interval>
    ensures { result ≡ clipped t exact }
{
    Interval::between(exact.0.max(least(t)), exact.1.min(greatest(t)))
}

// Exact results: of a signed type clipped, of an unsigned one reduced.
fn settled(t: IntType, exact: (i128, i128)) -> Option<Interval>
    requires low { is_signed t ≡ false → FitsSigned w128 (exact.0 -ℤ wrapped t exact.0) }
    requires high { is_signed t ≡ false → FitsSigned w128 (exact.1 -ℤ wrapped t exact.1) }
    ensures { result ≡ settled_between t exact }
{
    if is_signed(t) {
        clipped(t, exact)
    } else {
        let (lo, hi) = ends::wrapped(t, exact.0, exact.1);
        Interval::between(lo, hi)
    }
}

// Products of unsigned numbers can have all 128 bits.
fn multiplied(t: IntType, x: (i128, i128), y: (i128, i128)) -> Option<Interval>
    requires left { InRange t x.0 × InRange t x.1 × x.0 ≤ℤ x.1 }
    requires right { InRange t y.0 × InRange t y.1 × y.0 ≤ℤ y.1 }
    ensures { result ≡ settled_between t (shown_range BinOp.Mul x y) }
{
    if is_signed(t) {
        return clipped(t, products(x, y));
    }
    let size = 1u128 << bits(t);
    let lo = x.0 as u128 * y.0 as u128;
    let hi = x.1 as u128 * y.1 as u128;
    if lo / size == hi / size {
        Interval::between((lo % size) as i128, (hi % size) as i128)
    } else {
        whole(t)
    }
}

fn whole(t: IntType) -> Option<Interval>
    ensures { result ≡ whole t }
{
    Interval::between(least(t), greatest(t))
}

// The quotients by negative and by positive divisors.
fn divided(t: IntType, x: (i128, i128), y: (i128, i128)) -> Option<Interval>
    requires left { IsRange x.0 x.1 }
    requires right { IsRange y.0 y.1 }
    ensures { result ≡ divided t x y }
{
    let negative = (y.0, y.1.min(-1));
    let positive = (y.0.max(1), y.1);
    match (negative.0 <= negative.1, positive.0 <= positive.1) {
        (true, true) => clipped(t, hull(quotients(x, negative), quotients(x, positive))),
        (true, false) => clipped(t, quotients(x, negative)),
        (false, true) => clipped(t, quotients(x, positive)),
        (false, false) => None,
    }
}

// The range of the quotients by divisors of one sign.
fn quotients(x: (i128, i128), y: (i128, i128)) -> (i128, i128)
    requires low { IsOfSomeType x.0 }
    requires high { IsOfSomeType x.1 }
    requires first { y.0 ≢ pos 0 }
    requires last { y.1 ≢ pos 0 }
    ensures { result ≡ quotients x y }
{
    corners(x.0 / y.0, x.0 / y.1, x.1 / y.0, x.1 / y.1)
}

fn hull(a: (i128, i128), b: (i128, i128)) -> (i128, i128)
    ensures { result ≡ hull a b }
{
    (a.0.min(b.0), a.1.max(b.1))
}

// The remainders: smaller in size than the divisor, and between zero and the left operand.
fn remainders(x: (i128, i128), y: (i128, i128)) -> Option<Interval>
    requires { IsRange y.0 y.1 }
    ensures { result ≡ remainders x y }
{
    let size = (-y.0).max(y.1);
    Interval::between((1 - size).max(x.0.min(0)), (size - 1).min(x.1.max(0)))
}

fn anded(t: IntType, x: (i128, i128), y: (i128, i128)) -> Option<Interval>
    ensures { result ≡ anded t x y }
{
    match (0 <= x.0, 0 <= y.0) {
        (true, true) => Interval::between(0, x.1.min(y.1)),
        (true, false) => Interval::between(0, x.1),
        (false, true) => Interval::between(0, y.1),
        (false, false) => whole(t),
    }
}

fn ored(t: IntType, x: (i128, i128), y: (i128, i128)) -> Option<Interval>
    requires left { IsRange x.0 x.1 }
    requires right { IsRange y.0 y.1 }
    ensures { result ≡ ored t x y }
{
    if 0 <= x.0 && 0 <= y.0 {
        Interval::between(x.0.max(y.0), ones_over(x.1.max(y.1)))
    } else {
        whole(t)
    }
}

fn xored(t: IntType, x: (i128, i128), y: (i128, i128)) -> Option<Interval>
    requires left { IsRange x.0 x.1 }
    requires right { IsRange y.0 y.1 }
    ensures { result ≡ xored t x y }
{
    if 0 <= x.0 && 0 <= y.0 {
        Interval::between(0, ones_over(x.1.max(y.1)))
    } else {
        whole(t)
    }
}

// The greatest number of as many bits as a number that is not negative.
fn ones_over(v: i128) -> i128
    requires low { pos 0 ≤ℤ v }
    requires high { IsOfSomeType v }
    ensures { result ≡ ones_over v }
{
    let length = 64 - (v as u64).leading_zeros();
    ((1u128 << length) - 1) as i128
}

// Whether some amount is from 0 to the width less one.
fn has_amount(t: IntType, y: (i128, i128)) -> bool
    ensures { result ≡ has_amount t y }
{
    0 <= y.1 && y.0 < i128::from(bits(t))
}

fn shifted_left(t: IntType, x: (i128, i128), y: (i128, i128)) -> Option<Interval>
    requires { InRange t x.0 × InRange t x.1 }
    ensures { result ≡ shifted_left t x y }
{
    if has_amount(t, y) {
        let least = power_of_two(nearest_amount(t, y.0));
        let greatest = power_of_two(nearest_amount(t, y.1));
        settled(t, products(x, (least, greatest)))
    } else {
        None
    }
}

fn shifted_right(t: IntType, x: (i128, i128), y: (i128, i128)) -> Option<Interval>
    ensures { result ≡ shifted_right t x y }
{
    if has_amount(t, y) {
        let (j, k) = (nearest_amount(t, y.0), nearest_amount(t, y.1));
        let (lo, hi) = corners(x.0 >> j, x.0 >> k, x.1 >> j, x.1 >> k);
        Interval::between(lo, hi)
    } else {
        None
    }
}
