//! What holds of each report.

ghost use Rattle.std.specs.Prelude.{IsTrue};
ghost use Rattle.ep_int.specs.declared.types.Order.{Order};
ghost use Rattle.ep_int.specs.Memory.{Memory};
ghost use Rattle.ep_core.specs.Program.{Program};
ghost use Rattle.ep_core.specs.Runs.{Side};
ghost use Rattle.ep_pass.specs.States.{StateOps};
ghost use Rattle.ep_pass.specs.ReportLaws.{AreLawful, EmptyReportsAgree, TurnsAreBounded, AlarmsStand, HeadsRepeat};
ghost use Rattle.ep_pass.specs.ReportLaws.{HeadsGoRound};

/// States that an analysis keeps of a program, for two machines of different byte orders: what is done with them, for
/// which memories of the machines one stands, and that the operations keep this.
pub trait States {
    ghost ops: { Program → (Side → Order) → StateOps Self };

    ghost In: { Program → (Side → Order) → Self → Memory → Memory → Type 0 };

    ghost laws: { AreLawful Self ops In };
}

/// States what an empty report means, and does nothing.
pub fn empty_report<S: States>()
    ensures { EmptyReportsAgree S S.ops }
{}

/// States what holds of each report, whatever the operations on the states are, and does nothing.
pub fn reports<S>()
    ensures turns { TurnsAreBounded S }
    ensures places { AlarmsStand S }
    ensures heads { HeadsRepeat S }
    ensures rounds { HeadsGoRound S }
{}
