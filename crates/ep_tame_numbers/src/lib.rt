//! What offsets of tame programs ask of numbers. Laws alone.
#![tactic(auto)]

ghost use Rattle.ep_tame_numbers.specs.Offsets.{KeepsOffsets};

use ep_congruence::Congruence;
use ep_domain::{Num, Pair};
use ep_intervals::Interval;

/// States that intervals with their congruences keep what offsets of tame programs need, and does nothing.
pub fn offset_laws()
    ensures { KeepsOffsets ⟦<Pair<Interval, Congruence> as Num>⟧.ops }
{}
