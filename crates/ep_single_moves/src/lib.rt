//! Cells that are moved, where a state stands for one pair of memories alone: laws alone.
#![tactic(auto)]

ghost use Rattle.ep_single_moves.specs.Laws.{TakenAreOne, MovesKeepOne};

use ep_domain::Num;

/// Does nothing: its contract is that what is taken of such a state is of one value, over every domain.
pub fn single_taken<N: Num>()
    ensures { TakenAreOne N.ops }
{}

/// Does nothing: its contract is that such a state stays one where cells are moved from one place of a side, or of
/// both, to one, over every domain.
pub fn single_moves<N: Num>()
    ensures { MovesKeepOne N.ops }
{}
