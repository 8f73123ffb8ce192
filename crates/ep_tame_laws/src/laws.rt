//! What holds of the report on each tame program.

ghost use Rattle.std.specs.Prelude.{ℕ, List};
ghost use Rattle.ep_int.specs.declared.types.Order.{Order};
ghost use Rattle.ep_core.specs.Program.{Program};
ghost use Rattle.ep_core.specs.Runs.{Side};
ghost use Rattle.ep_pass.specs.States.{StateOps};
ghost use Rattle.ep_tame_laws.specs.Tamely.{AreTamely, TameReports};

/// States that an analysis keeps of a program, for two machines of different byte orders: which of them are good, by
/// the blocks that are there, and that the operations keep this on tame programs.
pub trait TameStates {
    ghost ops: { Program → (Side → Order) → StateOps Self };

    ghost Good: { Program → (Side → Order) → Self → (live res : List ℕ) → Self → Type 0 };

    ghost rank: { Program → Self → ℕ };

    ghost limit: { Program → ℕ };

    ghost laws: { AreTamely Self ops Good rank limit };
}

/// States that no report on a tame program has an alarm of the kinds E1 to E4, and does nothing.
pub fn tame_reports<S: TameStates>()
    ensures { TameReports S S.ops S.limit }
{}
