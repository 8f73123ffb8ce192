//! A value goes to the place of its address, where a state stands for one pair of memories alone: laws alone.
#![tactic(auto)]

ghost use Rattle.ep_single_puts.specs.Laws.{PutsKeepOne};

use ep_domain::Num;

/// Does nothing: its contract is that such a state stays one where each running machine stores one value at one
/// address, without a fault, over every domain that keeps single numbers.
pub fn single_puts<N: Num>()
    ensures { PutsKeepOne N.ops }
{}
