//! Machines do what the symbols of movers say: laws alone.
#![tactic(auto)]

ghost use Rattle.ep_mover_runs.specs.Laws.{ExpressionsFollow, StatementsFollow, AllFollow, StartsFollow, RunsFollow};
ghost use Rattle.ep_mover_runs.specs.Laws.{SameAgree, AgreeingAreSame};

/// Does nothing: its contract is that machines do what the symbols of movers say, from their start on: expressions,
/// statements, statements one after another, and whole runs, with enough inputs and with too few. So the machines of a
/// mover agree exactly where they put out the same symbols.
pub fn mover_runs()
    ensures expressions { ExpressionsFollow }
    ensures statements { StatementsFollow }
    ensures all { AllFollow }
    ensures starts { StartsFollow }
    ensures runs { RunsFollow }
    ensures same { SameAgree }
    ensures agreeing { AgreeingAreSame }
{}
