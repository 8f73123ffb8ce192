//! What is known where the main of a tame program begins and ends. Laws alone.
#![tactic(auto)]

ghost use Rattle.std.specs.Prelude.{IsTrue};
ghost use Rattle.ep_int.specs.declared.types.Order.{Order};
ghost use Rattle.ep_layout.specs.Table.{IsBuilt};
ghost use Rattle.ep_core.specs.Program.{Program};
ghost use Rattle.ep_core.specs.Runs.{Side};
ghost use Rattle.ep_core.specs.WellFormed.{is_well_formed};
ghost use Rattle.ep_kinds.specs.Tame.{are_tame_types};
ghost use Rattle.ep_alarm_laws.specs.Laws.{ProductsKeepStrides};
ghost use Rattle.ep_tame_numbers.specs.Offsets.{KeepsOffsets};
ghost use Rattle.ep_tame_ends.specs.Laws.{EndsAreGood};

use ep_domain::Num;

/// States that main begins in a good state, and that its result is the same on both machines, over each domain that
/// keeps what offsets need, and does nothing.
pub fn end_laws<N: Num>()
    ensures { KeepsOffsets N.ops → ProductsKeepStrides N.ops → (p : Program) → IsTrue (is_well_formed p)
        → IsBuilt p.types → IsTrue (are_tame_types p.types) → (ord : Side → Order) → EndsAreGood N.ops p ord }
{}
