//! Cells that surely hold one number on both sides, where a state stands for one pair of memories alone: laws alone.
#![tactic(auto)]

ghost use Rattle.ep_single_shared.specs.Laws.{ResharesKeepOne};

use ep_domain::Num;

/// Does nothing: its contract is that such a state stays one where cells of both sides become one, over every domain
/// that keeps single numbers.
pub fn single_shared<N: Num>()
    ensures { ResharesKeepOne N.ops }
{}
