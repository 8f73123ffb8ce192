//! Pairs of values that can be one alone: laws alone.
#![tactic(auto)]

ghost use Rattle.ep_single_pairs.specs.Laws.{SamesAreKnown, TestsGoOn};

use ep_domain::Num;

/// Does nothing: its contract is that equal values are known to be equal, and that a test of such values without a
/// fault goes on, over every domain.
pub fn single_pairs<N: Num>()
    ensures sames { SamesAreKnown N.ops }
    ensures tests { TestsGoOn N.ops }
{}
