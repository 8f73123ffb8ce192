//! What arithmetic gives of the ends of ranges.

ghost use Rattle.std.specs.Prelude.{◌≡◌, ◌<◌, ◌^◌, ◌*ℤ◌, pos, FitsSigned};
ghost use Rattle.std.specs.Int.{w128};
ghost use Rattle.ep_range_laws.specs.Faults.{is_shift, least_of_four, greatest_of_four, shown_range, nearest_amount};

use ep_int::{BinOp, IntType, bits};

/// Whether the right operand is the amount of a shift.
pub fn is_shift(op: BinOp) -> bool
    ensures { result ≡ is_shift op }
{
    matches!(op, BinOp::Shl | BinOp::Shr)
}

/// The least and the greatest of four numbers.
pub fn corners(a: i128, b: i128, c: i128, d: i128) -> (i128, i128)
    ensures { result ≡ (least_of_four a b c d, greatest_of_four a b c d) }
{
    (a.min(b).min(c.min(d)), a.max(b).max(c.max(d)))
}

/// The range of the products of two ranges.
pub fn products(x: (i128, i128), y: (i128, i128)) -> (i128, i128)
    requires low { FitsSigned w128 (x.0 *ℤ y.0) × FitsSigned w128 (x.0 *ℤ y.1) }
    requires high { FitsSigned w128 (x.1 *ℤ y.0) × FitsSigned w128 (x.1 *ℤ y.1) }
    ensures { result ≡ shown_range BinOp.Mul x y }
{
    corners(x.0 * y.0, x.0 * y.1, x.1 * y.0, x.1 * y.1)
}

/// The nearest amount of a shift of the type.
pub fn nearest_amount(t: IntType, y: i128) -> u32
    ensures value { result ≡ nearest_amount t y }
    ensures within { result < 64 }
{
    y.clamp(0, i128::from(bits(t)) - 1).unsigned_abs() as u32
}

/// 2 to a power.
pub fn power_of_two(n: u32) -> i128
    requires { n < 64 }
    ensures { result ≡ pos (2 ^ n) }
{
    i128::from(1u64 << n)
}
