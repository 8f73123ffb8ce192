//! What operators give of masks.

ghost use Rattle.std.specs.Prelude.{◌≡◌, ◌<◌, ◌^◌, pos};
ghost use Rattle.ep_int.specs.Types.{bits_of};
ghost use Rattle.ep_bit_laws.specs.Patterns.{pattern, in_type, low_part};
ghost use Rattle.ep_bit_laws.specs.Results.{both_of, either_of, one_of, shifted_down, right_by, left_by, known};
ghost use Rattle.ep_bit_laws.specs.Results.{low_known, exact_of, low_result, with_low, by_low_bits};
ghost use Rattle.ep_bit_domain.specs.KnownBits.{pattern_of, formed};

use crate::KnownBits;
use crate::masks::{LIMIT, bit, low, ones_in_type, power, sign_bits, zeros_in_type, zeros_of_type};
use ep_int::{BinOp, IntType, bits};

// Of the numbers of a type.
pub(crate) fn in_type(t: IntType, x: &KnownBits) -> Option<KnownBits>
    ensures { result ≡ formed (in_type t (pattern_of x.now)) }
{
    KnownBits::formed(zeros_in_type(t, x.zeros), ones_in_type(t, x.ones))
}

// The low bits, as those of a number of an unsigned type.
pub(crate) fn low_part(t: IntType, zeros: u128, ones: u128) -> Option<KnownBits>
    ensures { result ≡ formed (low_part t (pattern zeros ones)) }
{
    let width = bits(t);
    KnownBits::formed(low(zeros, width) | sign_bits(t), low(ones, width))
}

pub(crate) fn both(x: &KnownBits, y: &KnownBits) -> Option<KnownBits>
    ensures { result ≡ formed (both_of (pattern_of x.now) (pattern_of y.now)) }
{
    KnownBits::formed(x.zeros | y.zeros, x.ones & y.ones)
}

pub(crate) fn either(x: &KnownBits, y: &KnownBits) -> Option<KnownBits>
    ensures { result ≡ formed (either_of (pattern_of x.now) (pattern_of y.now)) }
{
    KnownBits::formed(x.zeros & y.zeros, x.ones | y.ones)
}

pub(crate) fn one(x: &KnownBits, y: &KnownBits) -> Option<KnownBits>
    ensures { result ≡ formed (one_of (pattern_of x.now) (pattern_of y.now)) }
{
    KnownBits::formed(
        x.zeros & y.zeros | x.ones & y.ones,
        x.zeros & y.ones | x.ones & y.zeros,
    )
}

// To the right, filled with bit 64.
fn shifted_down(n: u32, word: u128) -> u128
    requires { n < 64 }
    ensures { result ≡ shifted_down n word }
{
    let fill = if bit(word, 64) {
        LIMIT - power(65 - n)
    } else {
        0
    };
    word >> n | fill
}

pub(crate) fn right_by(n: u32, x: &KnownBits) -> Option<KnownBits>
    requires { n < 64 }
    ensures { result ≡ formed (right_by n (pattern_of x.now)) }
{
    KnownBits::formed(shifted_down(n, x.zeros), shifted_down(n, x.ones))
}

// To the left, filled with zeros.
pub(crate) fn left_by(t: IntType, n: u32, x: &KnownBits) -> Option<KnownBits>
    requires { n < 64 }
    ensures { result ≡ formed (left_by t n (pattern_of x.now)) }
{
    let fill = power(n);
    low_part(t, x.zeros * fill + (fill - 1), x.ones * fill)
}

fn known(x: &KnownBits) -> u128
    ensures { result ≡ known (pattern_of x.now) }
{
    x.zeros | x.ones
}

// How many low bits are known of both without a gap.
fn low_known(t: IntType, x: &KnownBits, y: &KnownBits) -> u32
    ensures value { result ≡ low_known t (pattern_of x.now) (pattern_of y.now) }
    ensures within { result < 64 }
{
    (known(x) & known(y)).trailing_ones().min(bits(t) - 1)
}

// A sum, a difference or a product of numbers of 64 bits.
fn exact(op: BinOp, x: u128, y: u128) -> i128
    requires left { x < 2 ^ 63 }
    requires right { y < 2 ^ 63 }
    ensures { result ≡ exact_of op (pos x) (pos y) }
{
    let (left, right) = (x as i128, y as i128);
    match op {
        BinOp::Add => left + right,
        BinOp::Sub => left - right,
        _ => left * right,
    }
}

// Its low bits.
fn low_result(op: BinOp, n: u32, x: &KnownBits, y: &KnownBits) -> u128
    requires { n < 64 }
    ensures value { result ≡ low_result op n (pattern_of x.now) (pattern_of y.now) }
    ensures below { result < 2 ^ n }
{
    let exact = exact(op, low(x.ones, n), low(y.ones, n));
    low(exact.cast_unsigned(), n)
}

fn with_low(t: IntType, n: u32, word: u128) -> Option<KnownBits>
    requires width { n < 64 }
    requires word { word < 2 ^ n }
    ensures { result ≡ formed (with_low t n word) }
{
    KnownBits::formed(power(n) - 1 - word | zeros_of_type(t), word)
}

pub(crate) fn by_low_bits(op: BinOp, t: IntType, x: &KnownBits, y: &KnownBits) -> Option<KnownBits>
    ensures { result ≡ formed (by_low_bits op t (pattern_of x.now) (pattern_of y.now)) }
{
    let n = low_known(t, x, y);
    with_low(t, n, low_result(op, n, x, y))
}
