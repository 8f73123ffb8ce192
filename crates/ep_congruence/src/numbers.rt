//! Remainders and moduli as numbers.

ghost use Rattle.std.specs.Prelude.{◌≡◌, ◌<◌, ◌≤◌, ◌≤ℤ◌, ◌&&◌, ◌||◌, ◌-ℤ◌, ◌^◌, int_le, int_lt, pos};
ghost use Rattle.ep_int.specs.declared.types.IntType.TheVariants.{I64, U64};
ghost use Rattle.ep_int.specs.Types.{bits_of, residue, least_of, greatest_of};
ghost use Rattle.ep_congruence_laws.specs.Classes.{greatest_modulus, is_number, is_class};

use ep_int::{IntType, bits, greatest, least};

/// The greatest modulus, 2^65 - 1.
pub(crate) const GREATEST_MODULUS: u128 = (1 << 65) - 1;

// Whether a number is of some integer type.
pub(crate) fn is_number(z: i128) -> bool
    ensures { result ≡ is_number z }
{
    least(IntType::I64) <= z && z <= greatest(IntType::U64)
}

// What is left of a whole number.
pub(crate) fn residue(m: u128, z: i128) -> u128
    requires { 0 < m }
    ensures value { result ≡ residue m z }
    ensures below { result < m }
{
    if 0 <= z {
        z as u128 % m
    } else {
        m - 1 - (-1 - z) as u128 % m
    }
}

// Whether a remainder and a modulus are those of a class that a value may be.
pub(crate) fn is_class(r: i128, m: u128) -> bool
    ensures { result ≡ is_class r m }
{
    if m == 0 {
        return is_number(r);
    }
    if GREATEST_MODULUS < m || r < 0 || m as i128 <= r {
        return false;
    }
    r <= greatest(IntType::U64) || least(IntType::I64) <= r - m as i128
}

// How many numbers a type has: 2 to the width.
pub(crate) fn turn(t: IntType) -> u128
    ensures { result ≡ 2 ^ bits_of t }
{
    1 << bits(t)
}
