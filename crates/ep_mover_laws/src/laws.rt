//! What holds of the report on each mover.

ghost use Rattle.ep_int.specs.declared.types.Order.{Order};
ghost use Rattle.ep_int.specs.Memory.{Memory};
ghost use Rattle.ep_core.specs.Program.{Program};
ghost use Rattle.ep_core.specs.Runs.{Side};
ghost use Rattle.ep_pass.specs.ReportLaws.{AreLawful};
ghost use Rattle.ep_pass.specs.States.{StateOps};
ghost use Rattle.ep_movers.specs.Movers.{Machine};
ghost use Rattle.ep_mover_laws.specs.Laws.{KeepAllMoved, SameSymbolsReportNothing, AgreeingMoversReportNothing};

/// States that an analysis keeps of a mover, for two machines of different byte orders: what is done with them, for
/// which memories of the machines one stands, what is known of it where the text tells the bytes, and that the
/// operations keep both.
pub trait MoverStates {
    ghost ops: { Program → (Side → Order) → StateOps Self };

    ghost Concretises: { Program → (Side → Order) → Self → Memory → Memory → Type 0 };

    ghost Moved: { Program → (Side → Order) → (Side → Machine) → Self → Type 0 };

    ghost lawful: { AreLawful Self ops Concretises };

    ghost laws: { KeepAllMoved Self ops Concretises Moved };
}

/// States that the reports on movers are empty where the machines agree, and does nothing.
pub fn mover_reports<S: MoverStates>()
    ensures same { SameSymbolsReportNothing S S.ops }
    ensures agreeing { AgreeingMoversReportNothing S S.ops }
{}
