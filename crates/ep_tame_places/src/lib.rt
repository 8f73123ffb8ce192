//! Where the places and the pointers of tame programs lie, target by target. Laws alone.
#![tactic(auto)]

ghost use Rattle.std.specs.Prelude.{IsTrue};
ghost use Rattle.ep_layout.specs.Table.{IsBuilt};
ghost use Rattle.ep_core.specs.Program.{Program};
ghost use Rattle.ep_core.specs.WellFormed.{blocks_fit};
ghost use Rattle.ep_kinds.specs.Tame.{are_tame_types};
ghost use Rattle.ep_alarm_laws.specs.Laws.{ProductsKeepStrides};
ghost use Rattle.ep_tame_numbers.specs.Offsets.{KeepsOffsets};
ghost use Rattle.ep_tame_places.specs.Laws.{PlaceLaws};

use ep_domain::Num;

/// States where places and pointers of tame programs lie, over each domain that keeps what offsets need, and does
/// nothing.
pub fn place_laws<N: Num>()
    ensures { KeepsOffsets N.ops → ProductsKeepStrides N.ops → (p : Program) → IsBuilt p.types
        → IsTrue (are_tame_types p.types) → IsTrue (blocks_fit p.types p.blocks) → PlaceLaws N.ops p }
{}
