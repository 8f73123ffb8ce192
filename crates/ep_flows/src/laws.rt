//! States whose operations keep what they stand for.

ghost use Rattle.ep_core.specs.Program.{Program};
ghost use Rattle.ep_core.specs.Runs.{Side};
ghost use Rattle.ep_int.specs.declared.types.Order.{Order};
ghost use Rattle.ep_int.specs.Memory.{Memory};
ghost use Rattle.ep_pass.specs.ReportLaws.{AreLawful, EmptyReportsAgree};

use crate::states::AbstractStates;

/// States of two machines of different byte orders whose operations keep, of each memory, what a state stands for.
pub trait LawfulStates: AbstractStates {
    /// The memories of the left and of the right machine for which a state stands.
    ghost In: { Program → (Side → Order) → Self → Memory → Memory → Type 0 };

    ghost laws: { AreLawful Self Self.AbstractStates.ops In };
}

/// Does nothing: its contract is that two machines agree on each well-formed program whose report is empty.
pub fn empty_report<K: LawfulStates>()
    ensures { EmptyReportsAgree K K.ops }
{}
