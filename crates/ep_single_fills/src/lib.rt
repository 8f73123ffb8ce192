//! Fills of bytes, where a state stands for one pair of memories alone: laws alone.
#![tactic(auto)]

ghost use Rattle.ep_single_values.specs.Statements.{StatementsAreExact};
ghost use Rattle.ep_single_fills.specs.Laws.{IsFill};

use ep_domain::Num;

/// Does nothing: its contract is that a fill that the machines do has no fault and keeps such a state, over every
/// domain.
pub fn single_fills<N: Num>()
    ensures { StatementsAreExact N.ops IsFill }
{}
