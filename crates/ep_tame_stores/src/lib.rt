//! What statements that store one value do to good states of tame programs. Laws alone.
#![tactic(auto)]

ghost use Rattle.std.specs.Prelude.{IsTrue};
ghost use Rattle.ep_int.specs.declared.types.Order.{Order};
ghost use Rattle.ep_layout.specs.Table.{IsBuilt};
ghost use Rattle.ep_core.specs.Program.{Program};
ghost use Rattle.ep_core.specs.Runs.{Side};
ghost use Rattle.ep_core.specs.WellFormed.{is_well_formed};
ghost use Rattle.ep_kinds.specs.Tame.{are_tame_types};
ghost use Rattle.ep_alarm_laws.specs.Laws.{ProductsKeepStrides};
ghost use Rattle.ep_tame_numbers.specs.Offsets.{KeepsOffsets};
ghost use Rattle.ep_tame_stores.specs.Laws.{StoresKeepGood};

use ep_domain::Num;

/// States that assignments, inputs and returns keep good states and have faults of undefined behaviour alone, over each
/// domain that keeps what offsets need, and does nothing.
pub fn store_laws<N: Num>()
    ensures { KeepsOffsets N.ops → ProductsKeepStrides N.ops → (p : Program) → IsTrue (is_well_formed p)
        → IsBuilt p.types → IsTrue (are_tame_types p.types) → (ord : Side → Order) → StoresKeepGood N.ops p ord }
{}
