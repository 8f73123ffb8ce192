//! Assignments of structs and unions, where a state stands for one pair of memories alone: laws alone.
#![tactic(auto)]

ghost use Rattle.ep_single_copies.specs.Laws.{CopiesAreExact};

use ep_domain::Num;

/// Does nothing: its contract is that assigning an object that has bytes has no fault where the machines have none, and
/// keeps such a state, over every domain.
pub fn single_copies<N: Num>()
    ensures { CopiesAreExact N.ops }
{}
