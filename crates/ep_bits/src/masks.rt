//! Bits 0 to 64 of numbers, as words.

ghost use Rattle.std.specs.Prelude.{◌≡◌, ◌<◌, ◌≤◌, ◌-◌, ◌%◌, ◌^◌, ◌&&◌, ◌||◌, not, ℕ};
ghost use Rattle.ep_bit_laws.specs.Bits.{bit, low_bits};
ghost use Rattle.ep_bit_laws.specs.Patterns.{is_number, is_pattern, pattern, matches, closed};
ghost use Rattle.ep_bit_laws.specs.Patterns.{sign_place, sign_bits, type_pattern, in_type};

use ep_int::{IntType, bits, greatest, is_signed, least};

/// How many words of 65 bits there are.
pub(crate) const LIMIT: u128 = 1 << 65;

// Whether a number is of some integer type.
pub(crate) fn is_number(z: i128) -> bool
    ensures { result ≡ is_number z }
{
    least(IntType::I64) <= z && z <= greatest(IntType::U64)
}

pub(crate) fn bit(n: u128, k: u32) -> bool
    requires { k < 128 }
    ensures { result ≡ bit n k }
{
    n >> k & 1 == 1
}

pub(crate) fn power(k: u32) -> u128
    requires { k < 128 }
    ensures { result ≡ 2 ^ k }
{
    1 << k
}

// The low k bits.
pub(crate) fn low(n: u128, k: u32) -> u128
    requires { k < 128 }
    ensures value { result ≡ n % 2 ^ k }
    ensures below { result < 2 ^ k }
{
    n & power(k) - 1
}

// The bits of a number, of which bit 64 is the sign.
pub(crate) fn low_bits(z: i128) -> u128
    ensures value { result ≡ low_bits z }
    ensures below { result < 2 ^ 65 }
{
    z.cast_unsigned() & LIMIT - 1
}

fn implies(a: bool, b: bool) -> bool
    ensures { result ≡ (not a || b) }
{
    !a || b
}

// What bits 63 and 64 have to do with one another.
fn are_closed(zeros: u128, ones: u128) -> bool
    ensures { result ≡ ((not (bit ones 64) || bit ones 63) && (not (bit zeros 63) || bit zeros 64)) }
{
    implies(bit(ones, 64), bit(ones, 63)) && implies(bit(zeros, 63), bit(zeros, 64))
}

// Whether bits may be known so.
pub(crate) fn is_pattern(zeros: u128, ones: u128) -> bool
    ensures { result ≡ is_pattern zeros ones }
{
    (zeros < LIMIT && ones < LIMIT) && (zeros & ones == 0 && are_closed(zeros, ones))
}

// Where bit 63 is 0, bit 64 is.
pub(crate) fn closed_zeros(zeros: u128) -> u128
    ensures { (ones : ℕ) → result ≡ (closed (pattern zeros ones)).zeros }
{
    if bit(zeros, 63) {
        zeros | 1 << 64
    } else {
        zeros
    }
}

// Where bit 64 is 1, bit 63 is.
pub(crate) fn closed_ones(ones: u128) -> u128
    ensures { (zeros : ℕ) → result ≡ (closed (pattern zeros ones)).ones }
{
    if bit(ones, 64) { ones | 1 << 63 } else { ones }
}

// From this bit on a number of the type has the bits of its sign.
fn sign_place(t: IntType) -> u32
    ensures value { result ≡ sign_place t }
    ensures within { result ≤ 64 }
{
    if is_signed(t) { bits(t) - 1 } else { bits(t) }
}

pub(crate) fn sign_bits(t: IntType) -> u128
    ensures value { result ≡ sign_bits t }
    ensures below { result < 2 ^ 65 }
{
    LIMIT - power(sign_place(t))
}

// What is known to be 0 of each number of a type.
pub(crate) fn zeros_of_type(t: IntType) -> u128
    ensures value { result ≡ (type_pattern t).zeros }
    ensures below { result < 2 ^ 65 }
{
    if is_signed(t) { 0 } else { sign_bits(t) }
}

// Of the numbers of a type: if one of the bits of the sign is 0, all are.
pub(crate) fn zeros_in_type(t: IntType, zeros: u128) -> u128
    ensures { (ones : ℕ) → result ≡ (in_type t (pattern zeros ones)).zeros }
{
    if is_signed(t) && zeros & sign_bits(t) == 0 {
        zeros
    } else {
        zeros | sign_bits(t)
    }
}

// If one of the bits of the sign is 1, all are.
pub(crate) fn ones_in_type(t: IntType, ones: u128) -> u128
    ensures { (zeros : ℕ) → result ≡ (in_type t (pattern zeros ones)).ones }
{
    if !is_signed(t) || ones & sign_bits(t) == 0 {
        ones
    } else {
        ones | sign_bits(t)
    }
}

// Whether a word has the bits.
pub(crate) fn matches(zeros: u128, ones: u128, word: u128) -> bool
    ensures { result ≡ matches (pattern zeros ones) word }
{
    word & zeros == 0 && word & ones == ones
}
