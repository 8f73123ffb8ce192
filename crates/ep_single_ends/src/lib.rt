//! The end of main, where a state stands for one pair of memories alone: laws alone.
#![tactic(auto)]

ghost use Rattle.ep_single_ends.specs.Laws.{EndIsExact};

use ep_domain::Num;

/// Does nothing: its contract is that nothing is wrong at the end of main where both machines put out the same result,
/// over every domain.
pub fn single_ends<N: Num>()
    ensures { EndIsExact N.ops }
{}
