//! What movers ask of numbers. Laws alone.
#![tactic(auto)]

ghost use Rattle.ep_mover_values.specs.Naturals.{KeepsNaturals};

use ep_congruence::Congruence;
use ep_domain::{Num, Pair};
use ep_intervals::Interval;

/// States that intervals with their congruences keep what movers need of numbers that aren't negative, and does
/// nothing.
pub fn natural_laws()
    ensures { KeepsNaturals ⟦<Pair<Interval, Congruence> as Num>⟧.ops }
{}
