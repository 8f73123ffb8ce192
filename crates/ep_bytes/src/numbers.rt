//! Numbers as bytes.

ghost use Rattle.std.specs.Prelude.{◌≡◌, ℕ, ℤ, false, ◌<◌, ◌≤◌, length, slice_index};
ghost use Rattle.ep_int.specs.Types.{bits_of, bytes_of, is_signed, representation, InRange};
ghost use Rattle.ep_int.specs.Encoding.{byte_of, decoded, encoded};

use ep_int::{IntType, Order, bytes, place, wrap};

/// The bytes of a number of type `t` on a machine of this byte order, by rising address, and zeros after them.
pub fn encode(order: Order, t: IntType, v: i128) -> [u8; 8]
    requires { InRange t v }
    ensures bytes { (p : ℕ) → p < bytes_of t → slice_index result p ≡ encoded order t v p }
    ensures rest { (p : ℕ) → bytes_of t ≤ p → slice_index result p ≡ 0 }
{
    let n = pattern(t, v);
    let width = bytes(t);
    let mut all = [0; 8];
    for p in 0..width {
        all[p as usize] = byte_at(n, place(order, width, p));
    }
    all
}

/// The number of type `t` that has these bytes, by rising address, on a machine of this byte order.
pub fn decode(order: Order, t: IntType, bytes: &[u8]) -> i128
    requires { length bytes.now ≡ bytes_of t }
    ensures value { result ≡ decoded order t (λ p. slice_index bytes.now p) }
    ensures ranged { InRange t result }
{
    let width = ep_int::bytes(t);
    let mut sum: u128 = 0;
    let mut unit: u128 = 1;
    for k in 0..width {
        let byte = bytes[place(order, width, k) as usize];
        sum += u128::from(byte) * unit;
        unit *= 256;
    }
    wrap(t, sum as i128)
}

// The unsigned type of the same width.
fn unsigned(t: IntType) -> IntType
    ensures same { (v : ℤ) → representation result v ≡ representation t v }
    ensures plain { is_signed result ≡ false }
    ensures width { bits_of result ≡ bits_of t }
{
    match t {
        IntType::I8 | IntType::U8 => IntType::U8,
        IntType::I16 | IntType::U16 => IntType::U16,
        IntType::I32 | IntType::U32 => IntType::U32,
        IntType::I64 | IntType::U64 => IntType::U64,
    }
}

// The bits of a number, in two's complement.
fn pattern(t: IntType, v: i128) -> u64
    ensures { result ≡ representation t v }
{
    wrap(unsigned(t), v) as u64
}

// Bits 8k to 8k + 7.
fn byte_at(n: u64, k: u32) -> u8
    requires { k < 8 }
    ensures { result ≡ byte_of k n }
{
    ((n >> (8 * k)) % 256) as u8
}
