//! What evaluation gives of tame programs is the same on both machines. Laws alone.
#![tactic(auto)]

ghost use Rattle.std.specs.Prelude.{IsTrue};
ghost use Rattle.ep_int.specs.declared.types.Order.{Order};
ghost use Rattle.ep_layout.specs.Table.{IsBuilt};
ghost use Rattle.ep_core.specs.Program.{Program};
ghost use Rattle.ep_core.specs.Runs.{Side};
ghost use Rattle.ep_core.specs.WellFormed.{blocks_fit};
ghost use Rattle.ep_kinds.specs.Tame.{are_tame_types};
ghost use Rattle.ep_alarm_laws.specs.Laws.{ProductsKeepStrides};
ghost use Rattle.ep_tame_numbers.specs.Offsets.{KeepsOffsets};
ghost use Rattle.ep_tame_twins.specs.Laws.{TwinLaws};

use ep_domain::Num;

/// States that in a good state expressions and places of a tame program have one value on both machines, and where
/// their pointers point, over each domain that keeps what offsets need, and does nothing.
pub fn twin_laws<N: Num>()
    ensures { KeepsOffsets N.ops → ProductsKeepStrides N.ops → (p : Program) → IsBuilt p.types
        → IsTrue (are_tame_types p.types) → IsTrue (blocks_fit p.types p.blocks) → (ord : Side → Order)
        → TwinLaws N.ops p ord }
{}
