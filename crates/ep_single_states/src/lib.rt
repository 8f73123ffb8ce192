//! States, numbers and operators that keep what stands for one thing alone: laws alone.
#![tactic(auto)]

ghost use Rattle.ep_single_states.specs.Laws.{BlocksAreExact, ResharesAreExact};
ghost use Rattle.ep_single_states.specs.OperatorLaws.{OperatorsKeepOne};
ghost use Rattle.ep_singles.specs.Numbers.{KeepsSingles};

use ep_congruence::Congruence;
use ep_domain::{Num, Pair};
use ep_intervals::Interval;

/// Does nothing: its contract is that operators on single numbers give one number and no fault where the machine has a
/// number, over every domain.
pub fn single_operators<N: Num>()
    ensures { OperatorsKeepOne N.ops }
{}

/// Does nothing: its contract is that meets and filters keep single numbers, over intervals with congruences.
pub fn single_numbers()
    ensures { KeepsSingles ⟦<Pair<Interval, Congruence> as Num>⟧.ops }
{}

/// Does nothing: its contract is that such a state stays one where blocks are entered and left, over every domain.
pub fn single_states<N: Num>()
    ensures { BlocksAreExact N.ops }
{}

/// Does nothing: its contract is that such a state stays one where cells of both sides become one, over every domain
/// that keeps single numbers.
pub fn single_reshares<N: Num>()
    ensures { ResharesAreExact N.ops }
{}
