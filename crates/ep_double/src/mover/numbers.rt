//! Constants as bytes, as masks and as amounts of bytes.

ghost use Rattle.std.specs.Prelude.{◌≡◌, ◌<◌, ◌%◌, ◌^◌, ◌&&◌, ◌||◌, nat_eq, nat_lt};
ghost use Rattle.ep_int.specs.Arith.{is_in_range};
ghost use Rattle.ep_int.specs.Encoding.{byte_of};
ghost use Rattle.ep_int.specs.Types.{bytes_of, residue};
ghost use Rattle.ep_movers.specs.Forms as form;
ghost use Rattle.ep_movers.specs.Symbols as symbol;
ghost use Rattle.ep_double.specs.ByteStates as rule;

use ep_int::{IntType, bytes, in_range, wrap};

/// A number in two's complement.
pub(crate) fn bits_of(v: i128) -> u64
    ensures { result ≡ rule.bits v }
{
    wrap(IntType::U64, v) as u64
}

/// Bits 8k to 8k + 7.
pub(crate) fn byte_at(n: u64, k: u32) -> u8
    requires { k < 8 }
    ensures { result ≡ byte_of k n }
{
    ((n >> (8 * k)) % 256) as u8
}

/// Whether a constant keeps whole bytes.
pub(crate) fn is_mask(v: Option<i128>) -> bool
    ensures { result ≡ symbol.is_mask v }
{
    match v {
        None => false,
        Some(v) => is_mask_of(v),
    }
}

fn is_mask_of(v: i128) -> bool
    ensures { result ≡ symbol.is_mask (Some v) }
{
    are_whole(bits_of(v))
}

fn is_whole(byte: u8) -> bool
    ensures { result ≡ (nat_eq byte 0 || nat_eq byte 255) }
{
    byte == 0 || byte == 255
}

fn are_whole(n: u64) -> bool
    ensures { result ≡ rule.are_whole_bytes n 0 8 }
{
    for k in 0..8 {
        if !is_whole(byte_at(n, k)) {
            return false;
        }
    }
    true
}

/// Whether a number is of a type.
pub(crate) fn is_number_of(t: IntType, v: i128) -> bool
    ensures { result ≡ is_in_range t v }
{
    in_range(t, v)
}

fn low_bits(v: i128) -> u32
    ensures value { result ≡ residue 256 v }
    ensures within { result < 256 }
{
    wrap(IntType::U8, v) as u32
}

/// A number of `u32`, where it is one.
pub(crate) fn word_of(v: i128) -> u32
    ensures { result ≡ residue (2 ^ 32) v }
{
    wrap(IntType::U32, v) as u32
}

/// The whole bytes that an amount of bits is.
pub(crate) fn bytes_moved(v: i128) -> usize
    ensures value { result ≡ symbol.bytes_moved v }
    ensures within { result < 32 }
{
    low_bits(v) as usize / 8
}

/// Whether an amount is a multiple of 8 below the width.
pub(crate) fn is_byte_amount(t: IntType, amount: Option<i128>) -> bool
    ensures { result ≡ form.is_byte_amount t amount }
{
    match amount {
        None => false,
        Some(v) => is_number_of(IntType::U8, v) && is_whole_amount(t, v),
    }
}

fn is_whole_amount(t: IntType, v: i128) -> bool
    ensures { result ≡ (nat_eq (residue 256 v % 8) 0 && nat_lt (symbol.bytes_moved v) (bytes_of t)) }
{
    low_bits(v) % 8 == 0 && bytes_moved(v) < bytes(t) as usize
}
