//! Operators on values that can be one alone, on one side: laws alone.
#![tactic(auto)]

ghost use Rattle.ep_single_sides.specs.Laws.{SidesAreOne};

use ep_domain::Num;

/// Does nothing: its contract is that operators on values that can be one alone give such a value, without a fault,
/// where the machine has one, over every domain.
pub fn single_sides<N: Num>()
    ensures { SidesAreOne N.ops }
{}
