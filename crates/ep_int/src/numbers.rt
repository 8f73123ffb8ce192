//! The numbers of integer types.

ghost use Rattle.std.specs.Prelude.{◌≡◌, ◌-◌, ◌^◌, ◌<◌, ◌≤◌, ◌↔◌, IsTrue};
ghost use Rattle.ep_int.specs.Encoding.{is_width};
ghost use Rattle.ep_int.specs.Types.{bytes_of, bits_of, least_of, greatest_of, is_signed, InRange, IsCongruent};
ghost use Rattle.ep_int.specs.Types.{representation, represented, wrapped};

use crate::IntType;

/// The width of a type, in bits.
pub fn bits(t: IntType) -> u32
    ensures value { result ≡ bits_of t }
    ensures within { result ≤ 64 }
{
    match t {
        IntType::I8 | IntType::U8 => 8,
        IntType::I16 | IntType::U16 => 16,
        IntType::I32 | IntType::U32 => 32,
        IntType::I64 | IntType::U64 => 64,
    }
}

/// The number of bytes of a type.
pub fn bytes(t: IntType) -> u32
    ensures value { result ≡ bytes_of t }
    ensures within { result ≤ 8 }
    ensures width { IsTrue (is_width result) }
{
    match t {
        IntType::I8 | IntType::U8 => 1,
        IntType::I16 | IntType::U16 => 2,
        IntType::I32 | IntType::U32 => 4,
        IntType::I64 | IntType::U64 => 8,
    }
}

/// The least number of a type.
pub fn least(t: IntType) -> i128
    ensures { result ≡ least_of t }
{
    match t {
        IntType::I8 => i128::from(i8::MIN),
        IntType::I16 => i128::from(i16::MIN),
        IntType::I32 => i128::from(i32::MIN),
        IntType::I64 => i128::from(i64::MIN),
        IntType::U8 | IntType::U16 | IntType::U32 | IntType::U64 => 0,
    }
}

/// The greatest number of a type.
pub fn greatest(t: IntType) -> i128
    ensures { result ≡ greatest_of t }
{
    match t {
        IntType::I8 => i128::from(i8::MAX),
        IntType::U8 => i128::from(u8::MAX),
        IntType::I16 => i128::from(i16::MAX),
        IntType::U16 => i128::from(u16::MAX),
        IntType::I32 => i128::from(i32::MAX),
        IntType::U32 => i128::from(u32::MAX),
        IntType::I64 => i128::from(i64::MAX),
        IntType::U64 => i128::from(u64::MAX),
    }
}

/// Whether a number is of a type.
pub fn in_range(t: IntType, v: i128) -> bool
    ensures { IsTrue result ↔ InRange t v }
{
    least(t) <= v && v <= greatest(t)
}

/// The number of type `t` that equals `v` modulo 2 to the power of the width: conversion, by C11 6.3.1.3, to signed
/// types too.
pub fn wrap(t: IntType, v: i128) -> i128
    ensures value { result ≡ wrapped t v }
    ensures in_range { InRange t result }
    ensures congruent { IsCongruent t v result }
{
    from_representation(t, to_representation(t, v))
}

/// The bits of `v` that a type keeps, in two's complement.
pub(crate) fn to_representation(t: IntType, v: i128) -> u128
    ensures value { result ≡ representation t v }
    ensures within { result < 2 ^ bits_of t }
{
    v.cast_unsigned() & mask(t)
}

/// The number of a type that has these bits.
pub(crate) fn from_representation(t: IntType, n: u128) -> i128
    requires { n < 2 ^ bits_of t }
    ensures { result ≡ represented t n }
{
    if is_signed(t) && n >> (bits(t) - 1) == 1 {
        n as i128 - (1 << bits(t))
    } else {
        n as i128
    }
}

/// As many ones as the type has bits.
pub(crate) fn mask(t: IntType) -> u128
    ensures { result ≡ 2 ^ bits_of t - 1 }
{
    (1 << bits(t)) - 1
}

/// Whether a type has negative numbers.
pub fn is_signed(t: IntType) -> bool
    ensures { result ≡ is_signed t }
{
    match t {
        IntType::I8 | IntType::I16 | IntType::I32 | IntType::I64 => true,
        IntType::U8 | IntType::U16 | IntType::U32 | IntType::U64 => false,
    }
}
