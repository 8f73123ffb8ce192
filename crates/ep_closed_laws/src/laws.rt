//! What holds of the reports on closed programs.

ghost use Rattle.ep_int.specs.declared.types.Order.{Order};
ghost use Rattle.ep_int.specs.Memory.{Memory};
ghost use Rattle.ep_core.specs.Program.{Program};
ghost use Rattle.ep_core.specs.Runs.{Side};
ghost use Rattle.ep_pass.specs.States.{StateOps};
ghost use Rattle.ep_closed_laws.specs.Laws.{AreExact, ClosedReports};

/// States that an analysis keeps of a closed program, for two machines of different byte orders: what is done with
/// them, for which pair of memories alone one stands, and that the operations keep this.
pub trait ExactStates {
    ghost ops: { Program → (Side → Order) → StateOps Self };

    ghost ConcretisesOne: { Program → (Side → Order) → Self → Memory → Memory → Type 0 };

    ghost laws: { AreExact Self ops ConcretisesOne };
}

/// States that the reports on closed and steady programs are empty, and does nothing.
pub fn closed_reports<S: ExactStates>()
    ensures { ClosedReports S S.ops }
{}
