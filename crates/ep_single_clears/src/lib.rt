//! Clears, where a state stands for one pair of memories alone: laws alone.
#![tactic(auto)]

ghost use Rattle.ep_single_clears.specs.Laws.{ClearsAreExact};

use ep_domain::Num;

/// Does nothing: its contract is that clearing an object that has bytes has no fault where the machines have none, and
/// keeps such a state, over every domain.
pub fn single_clears<N: Num>()
    ensures { ClearsAreExact N.ops }
{}
