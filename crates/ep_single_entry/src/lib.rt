//! Where main begins, a state stands for one pair of memories alone: laws alone.
#![tactic(auto)]

ghost use Rattle.ep_single_entry.specs.Laws.{EntryIsExact};

use ep_domain::Num;

/// Does nothing: its contract is that the state in which main begins stands for the first memories alone, undefined
/// outside of all blocks, over every domain.
pub fn single_entry<N: Num>()
    ensures { EntryIsExact N.ops }
{}
