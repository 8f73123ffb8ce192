//! What an operator gives of two congruences.

ghost use Rattle.std.specs.Prelude.{◌≡◌, ◌≤◌, ◌<◌, ◌≤ℤ◌, ◌*ℤ◌, ◌&&◌, false, pos, int_lt, IfSome, FitsSigned};
ghost use Rattle.std.specs.Prelude.{if◌then◌else◌};
ghost use Rattle.std.specs.Int.{w128};
ghost use Rattle.ep_int.specs.Types.{greatest_of};
ghost use Rattle.ep_int.specs.Arith.{IsOfSomeType};
ghost use Rattle.ep_congruence_laws.specs.Classes as classes;
ghost use Rattle.ep_congruence_laws.specs.Classes.{greatest_modulus, is_one};
ghost use Rattle.ep_congruence_laws.specs.Results.{ends_of, kept_modulus, limited, sum_leaves, difference_leaves};
ghost use Rattle.ep_congruence_laws.specs.Results.{sum_of, difference_of, multiples_of, past_limits, products};
ghost use Rattle.ep_congruence_laws.specs.Results.{product_at, product_of, shifted_of};
ghost use Rattle.ep_congruence_domain.specs.Congruence.{class_of, formed, common_divisor, amount_of};

use crate::Congruence;
use crate::gcd::{gcd, product};
use crate::numbers::{GREATEST_MODULUS, residue, turn};
use ep_domain::ranges::power_of_two;
use ep_int::{IntType, bits, greatest, is_signed, least};

// The class of a remainder and a modulus, where it has a number of some integer type.
fn reduced(r: i128, m: u128) -> Option<Congruence>
    requires { m ≤ greatest_modulus }
    ensures { result ≡ formed (classes.reduced r m) }
{
    if m == 0 {
        Congruence::formed(r, 0)
    } else {
        Congruence::formed(residue(m, r) as i128, m)
    }
}

// The modulus of results.
fn kept_modulus(t: IntType, leaves: bool, m: u128) -> u128
    ensures { result ≡ kept_modulus t leaves m }
{
    if is_signed(t) {
        m
    } else if leaves {
        gcd(m, turn(t))
    } else {
        m
    }
}

// A modulus past the limit becomes 1.
fn limited(m: u128) -> u128
    ensures value { result ≡ limited m }
    ensures small { result ≤ greatest_modulus }
{
    if m <= GREATEST_MODULUS { m } else { 1 }
}

// Whether a product of two numbers is greater than those of the type.
fn product_leaves(t: IntType, r: i128, s: i128) -> bool
    requires left { IsOfSomeType r }
    requires right { IsOfSomeType s }
    ensures { result ≡ int_lt (greatest_of t) (r *ℤ s) }
{
    if (r < 0) == (s < 0) {
        greatest(t).unsigned_abs() < r.unsigned_abs() * s.unsigned_abs()
    } else {
        false
    }
}

// The least and the greatest member of a type.
fn ends_of(t: IntType, x: &Congruence) -> (i128, i128)
    ensures value { result ≡ ends_of t (class_of x.now) }
    ensures low { IsOfSomeType result.0 }
    ensures high { IsOfSomeType result.1 }
{
    if x.is_one() {
        (x.remainder, x.remainder)
    } else {
        x.edges_of(least(t), greatest(t))
            .unwrap_or((least(t), greatest(t)))
    }
}

pub(crate) fn sum(t: IntType, x: &Congruence, y: &Congruence) -> Option<Congruence>
    ensures { result ≡ formed (sum_of t (class_of x.now) (class_of y.now)) }
{
    let leaves = greatest(t) < ends_of(t, x).1 + ends_of(t, y).1;
    let modulus = limited(kept_modulus(t, leaves, gcd(x.modulus, y.modulus)));
    reduced(x.remainder() + y.remainder(), modulus)
}

pub(crate) fn difference(t: IntType, x: &Congruence, y: &Congruence) -> Option<Congruence>
    ensures { result ≡ formed (difference_of t (class_of x.now) (class_of y.now)) }
{
    let leaves = ends_of(t, x).0 - ends_of(t, y).1 < least(t);
    let modulus = limited(kept_modulus(t, leaves, gcd(x.modulus, y.modulus)));
    reduced(x.remainder() - y.remainder(), modulus)
}

// A multiple of a number.
fn multiples_of(t: IntType, v: i128) -> Option<Congruence>
    requires { IsOfSomeType v }
    ensures { result ≡ formed (multiples_of t v) }
{
    reduced(0, kept_modulus(t, true, v.unsigned_abs()))
}

// A product past the limits.
fn past_limits(t: IntType, x: &Congruence, y: &Congruence) -> Option<Congruence>
    ensures { result ≡ formed (past_limits t (class_of x.now) (class_of y.now)) }
{
    if x.is_one() {
        multiples_of(t, x.remainder)
    } else if y.is_one() {
        multiples_of(t, y.remainder)
    } else {
        Congruence::formed(0, 1)
    }
}

// The greatest common divisor of the three products that the modulus of a product is, where none is too great.
fn common_divisor(x: &Congruence, y: &Congruence) -> Option<u128>
    ensures { result ≡ common_divisor (products (class_of x.now) (class_of y.now)) }
{
    let both = product(x.modulus, y.modulus)?;
    let left = product(x.modulus, y.remainder().unsigned_abs())?;
    let right = product(x.remainder().unsigned_abs(), y.modulus)?;
    Some(gcd(gcd(both, left), right))
}

// The products of two classes by their modulus.
fn product_at(t: IntType, x: &Congruence, y: &Congruence, modulus: u128) -> Option<Congruence>
    requires { FitsSigned w128 (x.now.remainder *ℤ y.now.remainder) }
    ensures { result ≡ formed (product_at t (class_of x.now) (class_of y.now) modulus) }
{
    if modulus <= GREATEST_MODULUS {
        reduced(x.remainder() * y.remainder(), modulus)
    } else {
        past_limits(t, x, y)
    }
}

pub(crate) fn product_of(t: IntType, x: &Congruence, y: &Congruence) -> Option<Congruence>
    requires { (is_one (class_of x.now) && is_one (class_of y.now)) ≡ false }
    ensures { result ≡ formed (product_of t (class_of x.now) (class_of y.now)) }
{
    let leaves = product_leaves(t, ends_of(t, x).1, ends_of(t, y).1);
    match common_divisor(x, y) {
        Some(divisor) => product_at(t, x, y, kept_modulus(t, leaves, divisor)),
        None => past_limits(t, x, y),
    }
}

// The amount of a shift, where it is one number that is allowed.
fn amount(t: IntType, y: &Congruence) -> Option<u32>
    ensures value { result ≡ amount_of t (class_of y.now) }
    ensures small { IfSome result (λ n. n < 64) }
{
    let n = y.remainder();
    if y.is_one() && 0 <= n && n < i128::from(bits(t)) {
        Some(n as u32)
    } else {
        None
    }
}

// To the left, by one number.
pub(crate) fn shifted_of(t: IntType, x: &Congruence, y: &Congruence) -> Option<Congruence>
    requires { (is_one (class_of x.now) && is_one (class_of y.now)) ≡ false }
    ensures { result ≡ formed (shifted_of t (class_of x.now) (class_of y.now)) }
{
    match amount(t, y) {
        Some(n) => product_of(t, x, &Congruence::one(power_of_two(n))),
        None => Congruence::formed(0, 1),
    }
}
