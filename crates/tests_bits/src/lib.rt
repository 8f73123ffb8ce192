//! Tests of known bits, as tables, and of their product with intervals and congruences.
#![tactic(auto)]

#[cfg(test)]
mod bits;

ghost use Rattle.std.specs.Prelude.{◌≡◌};

use ep_bits::KnownBits;
use ep_congruence::Congruence;
use ep_domain::{Num, Pair};
use ep_intervals::Interval;

/// Intervals with congruences and known bits.
pub type Numbers = Pair<Pair<Interval, Congruence>, KnownBits>;

/// How often widening can change such a number, at most.
pub fn height() -> u32
    ensures { result ≡ 144 }
{
    Numbers::HEIGHT
}
