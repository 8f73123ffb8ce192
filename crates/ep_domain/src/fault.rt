//! Where two ranges hold a pair of numbers of which arithmetic is undefined.

ghost use Rattle.std.specs.Prelude.{◌≡◌, ◌↔◌, ◌<◌, ◌^◌, pos, IsSome, IfSome, if◌then◌else◌, ◌≤ℤ◌};
ghost use Rattle.ep_int.specs.Types.{InRange, is_signed};
ghost use Rattle.ep_int.specs.Arith.{IsRightOperand};
ghost use Rattle.ep_range_laws.specs.Ranges.{IsRange};
ghost use Rattle.ep_range_laws.specs.Faults.{is_shift, part_of, lies_in, shown_range, may_overflow, may_not_divide};
ghost use Rattle.ep_range_laws.specs.Faults.{may_pass_width, may_not_shift, nearest_amount, right_part, fault_between};
ghost use Rattle.ep_range_laws.specs.Faults.{range_fault_of, MayFault, ShowsRange};

use crate::ranges::{is_shift, nearest_amount, power_of_two, products};
use ep_int::{BinOp, IntType, bits, greatest, is_signed, least};

/// The range of the number that an alarm shows, over the pairs of two ranges that arithmetic takes: the exact result
/// of an overflow, the divisor of a division, the amount of a shift. `None` where arithmetic is defined of each such
/// pair.
pub fn range_fault(op: BinOp, t: IntType, x: (i128, i128), y: (i128, i128)) -> Option<(i128, i128)>
    requires left { IsRange x.0 x.1 }
    requires right { IsRange y.0 y.1 }
    ensures value { result ≡ range_fault_of op t x y }
    ensures some { IsSome result ↔ MayFault op t x y }
    ensures shown { IfSome result (ShowsRange op t x y) }
{
    fault_between(op, t, part_of_type(t, x), right_part(op, t, y))
}

// The part of a range that is of a type.
fn part_of_type(t: IntType, x: (i128, i128)) -> (i128, i128)
    ensures { result ≡ part_of t x }
{
    (x.0.max(least(t)), x.1.min(greatest(t)))
}

// The right operands of a range that arithmetic takes.
fn right_part(op: BinOp, t: IntType, y: (i128, i128)) -> (i128, i128)
    ensures { result ≡ right_part op t y }
{
    if is_shift(op) { y } else { part_of_type(t, y) }
}

// The same for ranges that have only numbers that arithmetic takes, or none where their ends are out of order.
fn fault_between(op: BinOp, t: IntType, x: (i128, i128), y: (i128, i128)) -> Option<(i128, i128)>
    requires left { x.0 ≤ℤ x.1 → InRange t x.0 × InRange t x.1 }
    requires right { y.0 ≤ℤ y.1 → IsRightOperand op t y.0 × IsRightOperand op t y.1 }
    ensures { result ≡ fault_between op t x y }
{
    if x.0 > x.1 || y.0 > y.1 {
        return None;
    }
    match op {
        BinOp::Add => overflow(t, (x.0 + y.0, x.1 + y.1)),
        BinOp::Sub => overflow(t, (x.0 - y.1, x.1 - y.0)),
        BinOp::Mul if is_signed(t) => overflow(t, products(x, y)),
        BinOp::Div | BinOp::Rem => may_not_divide(t, x, y).then_some(y),
        BinOp::Shl => (may_pass_width(t, y) || may_not_shift(t, x, y)).then_some(y),
        BinOp::Shr => may_pass_width(t, y).then_some(y),
        BinOp::Mul | BinOp::And | BinOp::Or | BinOp::Xor => None,
    }
}

// A range of exact results, where some are out of the range of a signed type.
fn overflow(t: IntType, exact: (i128, i128)) -> Option<(i128, i128)>
    ensures { result ≡ (if may_overflow t exact then Some exact else None) }
{
    (is_signed(t) && (exact.0 < least(t) || greatest(t) < exact.1)).then_some(exact)
}

fn lies_in(x: (i128, i128), v: i128) -> bool
    ensures { result ≡ lies_in x v }
{
    x.0 <= v && v <= x.1
}

fn may_not_divide(t: IntType, x: (i128, i128), y: (i128, i128)) -> bool
    ensures { result ≡ may_not_divide t x y }
{
    lies_in(y, 0) || lies_in(x, least(t)) && lies_in(y, -1)
}

fn may_pass_width(t: IntType, y: (i128, i128)) -> bool
    ensures { result ≡ may_pass_width t y }
{
    y.0 < 0 || i128::from(bits(t)) <= y.1
}

fn may_not_shift(t: IntType, x: (i128, i128), y: (i128, i128)) -> bool
    requires { InRange t x.1 }
    ensures { result ≡ may_not_shift t x y }
{
    is_signed(t) && (x.0 < 0 || greatest(t) < x.1 * power_of_two(nearest_amount(t, y.1)))
}
