//! Greatest common divisors and multiples.

ghost use Rattle.std.specs.Prelude.{◌≡◌, ◌*◌, ◌≤◌, ◌<◌, Option, Some, None, if◌then◌else◌, nat_le};
ghost use Rattle.ep_congruence_laws.specs.Multiples.{gcd, is_multiple};
ghost use Rattle.ep_congruence_laws.specs.Results.{greatest_product};

/// The greatest product that is worked with, 2^126.
pub(crate) const GREATEST_PRODUCT: u128 = 1 << 126;

// By Euclid's algorithm, of which two steps halve a number.
pub(crate) fn gcd(a: u128, b: u128) -> u128
    ensures { result ≡ gcd a b }
{
    let mut x = a;
    let mut y = b;
    while y != 0 {
        let rest = x % y;
        x = y;
        y = rest;
    }
    x
}

// Whether a whole number is a multiple. Of 0 only 0 is one.
pub(crate) fn is_multiple(m: u128, z: i128) -> bool
    ensures { result ≡ is_multiple m z }
{
    z.unsigned_abs().is_multiple_of(m)
}

// A product that isn't too great.
pub(crate) fn product(a: u128, b: u128) -> Option<u128>
    ensures { result ≡ (if nat_le (a * b) greatest_product then Some (a * b) else None) }
{
    if b != 0 && GREATEST_PRODUCT / b < a {
        None
    } else {
        Some(a * b)
    }
}
