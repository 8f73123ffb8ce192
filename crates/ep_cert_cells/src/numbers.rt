//! What a certificate says of numbers.

ghost use Rattle.std.specs.Prelude.{◌≡◌};
ghost use Rattle.std.specs.Option.{option_map};
ghost use Rattle.ep_interval_laws.specs.Interval.{between};
ghost use Rattle.ep_cert_cells.specs.Reading.{congruence_of, number_of, number_at};

use crate::bytes::signed;
use ep_congruence::Congruence;
use ep_domain::{Num, Pair};
use ep_int::{IntType, greatest, least};
use ep_intervals::Interval;

/// The ends of the range that numbers lie in, and their remainder by a modulus.
pub type Numbers = Pair<Interval, Congruence>;

fn interval(lo: i128, hi: i128) -> Option<Interval>
    ensures { result ≡ between lo hi }
{
    if least(IntType::I64) <= lo && lo <= hi && hi <= greatest(IntType::U64) {
        Some(Interval::single(lo).join(&Interval::single(hi)))
    } else {
        None
    }
}

fn congruence(remainder: i128, modulus: i128) -> Option<Congruence>
    ensures { result ≡ congruence_of remainder modulus }
{
    Congruence::of(remainder, modulus)
}

fn number_of(lo: i128, hi: i128, remainder: i128, modulus: i128) -> Option<Numbers>
    ensures { result ≡ number_of lo hi remainder modulus }
{
    let interval = interval(lo, hi)?;
    let congruence = congruence(remainder, modulus)?;
    Pair::of(interval, congruence)
}

/// The ends of a range, and the remainder and the modulus of a class.
#[tactic(auto, unfolding(crate::specs::Reading::number_at))]
pub(crate) fn number_at(bytes: &[u8]) -> Option<(Numbers, &[u8])>
    ensures { option_map (λ p. (p.0, p.1.now)) result ≡ number_at bytes.now }
{
    let (lo, rest) = signed(bytes)?;
    let (hi, rest) = signed(rest)?;
    let (remainder, rest) = signed(rest)?;
    let (modulus, rest) = signed(rest)?;
    let number = number_of(lo, hi, remainder, modulus)?;
    Some((number, rest))
}
