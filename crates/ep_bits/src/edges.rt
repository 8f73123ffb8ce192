//! The least and the greatest number with given bits between two numbers.

ghost use Rattle.std.specs.Prelude.{◌≡◌, ◌<◌, ◌≤◌, ◌-◌, ◌≤ℤ◌, ◌^◌, ℕ, pos, negsuc, IfSome};
ghost use Rattle.ep_int.specs.Arith.{IsOfSomeType};
ghost use Rattle.ep_bit_laws.specs.Patterns.{pattern};
ghost use Rattle.ep_bit_laws.specs.Edges.{with_bit, first_at, least_positive, below_zero, first_negative};
ghost use Rattle.ep_bit_laws.specs.Edges.{first_from, turned, last_to, edges_at, edges_from};

use crate::masks::{bit, low, power};

// With one bit more, of the given weight: whether the number to begin with has it, and whether it has to be 0 or 1.
fn with_bit(
    from: bool,
    zero: bool,
    one: bool,
    weight: u128,
    least: u128,
    found: Option<u128>,
) -> Option<u128>
    requires weight { weight ≤ 2 ^ 64 }
    requires least { least < weight }
    requires found { IfSome found (λ m. m < weight) }
    ensures { result ≡ with_bit from zero one weight least found }
{
    if from {
        if zero {
            return None;
        }
        let m = found?;
        return Some(weight + m);
    }
    if one {
        return Some(weight + least);
    }
    match found {
        Some(m) => Some(m),
        None => { if zero { None } else { Some(weight + least) } }
    }
}

// The least number of 64 bits with these bits, from a number on.
fn first_at(zeros: u128, ones: u128, from: u128) -> Option<u128>
    ensures value { result ≡ first_at zeros ones from 64 }
    ensures below { IfSome result (λ m. m < 2 ^ 64) }
{
    let mut found = Some(0);
    for k in 0..64 {
        found = with_bit(
            bit(from, k),
            bit(zeros, k),
            bit(ones, k),
            power(k),
            low(ones, k),
            found,
        );
    }
    found
}

// The least one that isn't negative.
fn least_positive(ones: u128) -> Option<i128>
    ensures { (zeros : ℕ) → result ≡ least_positive zeros ones }
{
    if bit(ones, 64) {
        None
    } else {
        Some(low(ones, 64) as i128)
    }
}

// With these bits below the sign, negative.
fn below_zero(m: u128) -> i128
    requires { m < 2 ^ 64 }
    ensures { result ≡ below_zero m }
{
    m as i128 - (1 << 64)
}

// The least number of 65 bits with these bits, from a number on.
fn first_from(zeros: u128, ones: u128, lo: i128) -> Option<i128>
    requires low { negsuc (2 ^ 64 - 1) ≤ℤ lo }
    requires high { lo ≤ℤ pos (2 ^ 64 - 1) }
    ensures { result ≡ first_from zeros ones lo }
{
    if 0 <= lo {
        return first_positive(zeros, ones, lo.unsigned_abs());
    }
    match first_negative(zeros, ones, (lo + (1 << 64)).unsigned_abs()) {
        Some(v) => Some(v),
        None => least_positive(ones),
    }
}

// The same from a number that isn't negative.
fn first_positive(zeros: u128, ones: u128, from: u128) -> Option<i128>
    ensures { result ≡ first_from zeros ones (pos from) }
{
    if bit(ones, 64) {
        return None;
    }
    let m = first_at(zeros, ones, from)?;
    Some(m as i128)
}

// The least negative one, from the bits of a number below its sign on.
fn first_negative(zeros: u128, ones: u128, from: u128) -> Option<i128>
    ensures { result ≡ first_negative zeros ones from }
{
    if bit(zeros, 64) {
        return None;
    }
    let m = first_at(zeros, ones, from)?;
    Some(below_zero(m))
}

// The number that has all other bits.
fn turned(v: i128) -> i128
    ensures { result ≡ turned v }
{
    -1 - v
}

// The greatest number of 65 bits with these bits, up to a number.
fn last_to(zeros: u128, ones: u128, hi: i128) -> Option<i128>
    requires low { negsuc (2 ^ 64 - 1) ≤ℤ hi }
    requires high { hi ≤ℤ pos (2 ^ 64 - 1) }
    ensures { result ≡ last_to zeros ones hi }
{
    let v = first_from(ones, zeros, turned(hi))?;
    Some(turned(v))
}

// The least and the greatest number between two numbers.
pub(crate) fn edges(zeros: u128, ones: u128, lo: i128, hi: i128) -> Option<(i128, i128)>
    requires low { IsOfSomeType lo }
    requires high { IsOfSomeType hi }
    ensures { result ≡ edges_from (pattern zeros ones) lo hi }
{
    let first = first_from(zeros, ones, lo)?;
    let last = last_to(zeros, ones, hi)?;
    if first <= last {
        Some((first, last))
    } else {
        None
    }
}
