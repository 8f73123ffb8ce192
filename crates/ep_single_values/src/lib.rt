//! What expressions and statements are where a state stands for one pair of memories alone: definitions, and the laws
//! of expressions.
#![tactic(auto)]

ghost use Rattle.ep_int.specs.declared.types.Order.{Order};
ghost use Rattle.ep_core.specs.Program.{Program};
ghost use Rattle.ep_core.specs.Runs.{Side};
ghost use Rattle.ep_single_values.specs.Laws.{PlacesAreOne, ValuesAreOne};

use ep_domain::Num;

/// Does nothing: its contract is that in such a state each typed expression and place has one value, without a fault,
/// on each running machine that finds one, and that just its truth can be assumed, over every domain that keeps single
/// numbers.
pub fn single_values<N: Num>()
    ensures values { (p : Program) (ord : Side → Order) → ValuesAreOne N.ops p ord }
    ensures places { (p : Program) (ord : Side → Order) → PlacesAreOne N.ops p ord }
{}
