//! Statements that leave the memory as it is, and inputs, where a state stands for one pair of memories: laws alone.
#![tactic(auto)]

ghost use Rattle.ep_single_values.specs.Statements.{StatementsAreExact};
ghost use Rattle.ep_single_outputs.specs.Laws.{IsStill, TakesInputs};

use ep_domain::Num;

/// Does nothing: its contract is that a statement that does nothing, evaluates alone, or puts out a value or bytes, has
/// no fault where the machines put out the same, and keeps such a state, over every domain.
pub fn single_outputs<N: Num>()
    ensures { StatementsAreExact N.ops IsStill }
{}

/// Does nothing: its contract says of inputs what is asked of each statement. That is nothing, since closed programs
/// have none; over every domain.
pub fn single_inputs<N: Num>()
    ensures { StatementsAreExact N.ops TakesInputs }
{}
