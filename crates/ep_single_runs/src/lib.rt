//! Runs of bytes, where a state stands for one pair of memories alone: laws alone.
#![tactic(auto)]

ghost use Rattle.ep_single_runs.specs.Laws.{RunsAreOne};

use ep_domain::Num;

/// Does nothing: its contract is that a run of bytes through one pointer, where the machine's is in its block, begins
/// at one place, without a fault, over every domain.
pub fn single_runs<N: Num>()
    ensures { RunsAreOne N.ops }
{}
