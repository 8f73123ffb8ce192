//! What constants, addresses and loads give where a state stands for one pair of memories alone: laws alone.
#![tactic(auto)]

ghost use Rattle.ep_single_given.specs.Laws.{ConstantsGiveOne, LoadsGiveOne, PointersGiveOne, SamesGiveOne};

use ep_domain::Num;

/// Does nothing: its contract is that constants, addresses of blocks and null, and what is the same as another, give
/// one value each, without a fault, over every domain.
pub fn single_given<N: Num>()
    ensures constants { ConstantsGiveOne N.ops }
    ensures pointers { PointersGiveOne N.ops }
    ensures sames { SamesGiveOne N.ops }
{}

/// Does nothing: its contract is that a load gives one value, without a fault, where its place does and the machines
/// find one, over every domain.
pub fn single_loads<N: Num>()
    ensures { LoadsGiveOne N.ops }
{}
