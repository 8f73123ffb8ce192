//! Machines that see no byte outside of the blocks: laws alone.
#![tactic(auto)]

ghost use Rattle.ep_single_restricted.specs.Laws.{RunsAreRestricted};

/// Does nothing: its contract is that a machine does with a memory that is undefined outside of all blocks what it does
/// with the memory itself.
pub fn restricted_runs()
    ensures { RunsAreRestricted }
{}
