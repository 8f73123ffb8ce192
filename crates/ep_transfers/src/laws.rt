//! Laws: functions that do nothing, with what their contracts state.

ghost use Rattle.ep_transfers.specs.Copying.{CopiesHold};
ghost use Rattle.ep_transfers.specs.CallLaws.{ArgumentsHold, EntryHolds};
ghost use Rattle.ep_transfers.specs.Runs.{RunsHold};
ghost use Rattle.ep_transfers.specs.Statements.{Each, StatementsHold, ResultsHold, TestsHold, BlocksHold, PairsHold};
ghost use Rattle.ep_transfers.specs.WaitingLaws.{WaitingHolds};

use ep_domain::Num;

/// Does nothing: its contract is that statements which store one value, put one out or only evaluate are sound where
/// both machines run and where one does, over every domain.
pub fn statement_laws<N: Num>()
    ensures { Each (StatementsHold N.ops) }
{}

/// Does nothing: its contract is that results of calls and of main are sound, over every domain.
pub fn result_laws<N: Num>()
    ensures { Each (ResultsHold N.ops) }
{}

/// Does nothing: its contract is that tests, and what assuming their truths leaves, are sound, over every domain.
pub fn test_laws<N: Num>()
    ensures { Each (TestsHold N.ops) }
{}

/// Does nothing: its contract is that blocks come and go soundly, on both sides and on one, over every domain.
pub fn block_laws<N: Num>()
    ensures { Each (BlocksHold N.ops) }
{}

/// Does nothing: its contract is that nothing is lost where two states are brought together, over every domain.
pub fn pair_laws<N: Num>()
    ensures { Each (PairsHold N.ops) }
{}

/// Does nothing: its contract is that the arguments of calls go soundly to the parameters, where both machines run and
/// where one does, over every domain.
pub fn arguments_laws<N: Num>()
    ensures { Each (ArgumentsHold N.ops) }
{}

/// Does nothing: its contract is that what is known where main begins holds of the memories of both machines, over
/// every domain.
pub fn entry_laws<N: Num>()
    ensures { Each (EntryHolds N.ops) }
{}

/// Does nothing: its contract is that statements which copy bytes are sound where both machines run and where one does,
/// over every domain.
pub fn copy_laws<N: Num>()
    ensures { Each (CopiesHold N.ops) }
{}

/// Does nothing: its contract is that statements which touch runs of bytes are sound where both machines run and where
/// one does, over every domain.
pub fn run_laws<N: Num>()
    ensures { Each (RunsHold N.ops) }
{}

/// Does nothing: its contract is that of what was found before a callee's frame came, and of what a result gives, the
/// sort and the form stay those of a state, whatever its memories are, over every domain.
pub fn waiting_laws<N: Num>()
    ensures { Each (WaitingHolds N.ops) }
{}
