//! Statements that store one value, where a state stands for one pair of memories alone: laws alone.
#![tactic(auto)]

ghost use Rattle.ep_single_values.specs.Statements.{StatementsAreExact};
ghost use Rattle.ep_single_assigned.specs.Laws.{IsStore};

use ep_domain::Num;

/// Does nothing: its contract is that an assignment of a scalar and a return have no fault where the machines have
/// none, and keep such a state, over every domain.
pub fn single_assigned<N: Num>()
    ensures { StatementsAreExact N.ops IsStore }
{}
