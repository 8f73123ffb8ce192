//! The ends of intervals.

ghost use Rattle.std.specs.Prelude.{◌≡◌, ◌≤◌, ◌-ℤ◌, FitsSigned};
ghost use Rattle.std.specs.Int.{w128};
ghost use Rattle.ep_int.specs.Types.{wrapped};
ghost use Rattle.ep_int.specs.Arith.{IsOfSomeType};
ghost use Rattle.ep_interval_laws.specs.Ends.{low_limit, high_limit, lowered, raised, low_rank, high_rank};
ghost use Rattle.ep_interval_laws.specs.Ends.{wrapped_low, wrapped_high, low_apart, high_apart};

use ep_int::{IntType, greatest, least, wrap};

// The lower end that widening leaves.
pub(crate) fn lowered(end: i128, other: i128) -> i128
    ensures { result ≡ lowered end other }
{
    if other < end { low_limit(other) } else { end }
}

// The upper end that widening leaves.
pub(crate) fn raised(end: i128, other: i128) -> i128
    ensures { result ≡ raised end other }
{
    if end < other { high_limit(other) } else { end }
}

// The greatest limit that is not above a lower end.
fn low_limit(end: i128) -> i128
    ensures { result ≡ low_limit end }
{
    if 0 <= end {
        0
    } else if -0x80 <= end {
        -0x80
    } else if -0x8000 <= end {
        -0x8000
    } else if -0x8000_0000 <= end {
        -0x8000_0000
    } else {
        -0x8000_0000_0000_0000
    }
}

// The least limit that is not below an upper end.
fn high_limit(end: i128) -> i128
    ensures { result ≡ high_limit end }
{
    if end <= 0 {
        0
    } else if end <= 0x7f {
        0x7f
    } else if end <= 0xff {
        0xff
    } else if end <= 0x7fff {
        0x7fff
    } else if end <= 0xffff {
        0xffff
    } else if end <= 0x7fff_ffff {
        0x7fff_ffff
    } else if end <= 0xffff_ffff {
        0xffff_ffff
    } else if end <= 0x7fff_ffff_ffff_ffff {
        0x7fff_ffff_ffff_ffff
    } else {
        0xffff_ffff_ffff_ffff
    }
}

// How many lower limits are below an end.
pub(crate) fn low_rank(end: i128) -> u32
    ensures value { result ≡ low_rank end }
    ensures within { result ≤ 5 }
{
    u32::from(0 < end)
        + u32::from(-0x80 < end)
        + u32::from(-0x8000 < end)
        + u32::from(-0x8000_0000 < end)
        + u32::from(-0x8000_0000_0000_0000 < end)
}

// How many upper limits are above an end.
pub(crate) fn high_rank(end: i128) -> u32
    ensures value { result ≡ high_rank end }
    ensures within { result ≤ 9 }
{
    u32::from(end < 0)
        + u32::from(end < 0x7f)
        + u32::from(end < 0xff)
        + u32::from(end < 0x7fff)
        + u32::from(end < 0xffff)
        + u32::from(end < 0x7fff_ffff)
        + u32::from(end < 0xffff_ffff)
        + u32::from(end < 0x7fff_ffff_ffff_ffff)
        + u32::from(end < 0xffff_ffff_ffff_ffff)
}

// The ends of what the numbers from `lo` to `hi` are converted to.
pub(crate) fn wrapped(t: IntType, lo: i128, hi: i128) -> (i128, i128)
    requires low { FitsSigned w128 (lo -ℤ wrapped t lo) }
    requires high { FitsSigned w128 (hi -ℤ wrapped t hi) }
    ensures { result ≡ (wrapped_low t lo hi, wrapped_high t lo hi) }
{
    let (low, high) = (wrap(t, lo), wrap(t, hi));
    if lo - low == hi - high {
        (low, high)
    } else {
        (least(t), greatest(t))
    }
}

// A lower end without a number that is left out.
pub(crate) fn low_apart(end: i128, v: i128) -> i128
    requires { IsOfSomeType end }
    ensures { result ≡ low_apart end v }
{
    if end == v { end + 1 } else { end }
}

// An upper end without a number that is left out.
pub(crate) fn high_apart(end: i128, v: i128) -> i128
    requires { IsOfSomeType end }
    ensures { result ≡ high_apart end v }
{
    if end == v { end - 1 } else { end }
}
