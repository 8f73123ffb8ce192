//! Copies of bytes, where a state stands for one pair of memories alone: laws alone.
#![tactic(auto)]

ghost use Rattle.ep_single_values.specs.Statements.{StatementsAreExact};
ghost use Rattle.ep_single_byte_copies.specs.Laws.{IsByteCopy};

use ep_domain::Num;

/// Does nothing: its contract is that a copy of bytes that the machines do has no fault and keeps such a state, over
/// every domain.
pub fn single_byte_copies<N: Num>()
    ensures { StatementsAreExact N.ops IsByteCopy }
{}
