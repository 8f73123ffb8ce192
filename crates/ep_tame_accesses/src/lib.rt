//! Where the accesses of tame programs are. Laws alone.
#![tactic(auto)]

ghost use Rattle.std.specs.Prelude.{IsTrue};
ghost use Rattle.ep_layout.specs.Table.{IsBuilt};
ghost use Rattle.ep_core.specs.Program.{Program};
ghost use Rattle.ep_core.specs.WellFormed.{blocks_fit};
ghost use Rattle.ep_kinds.specs.Tame.{are_tame_types};
ghost use Rattle.ep_alarm_laws.specs.Laws.{ProductsKeepStrides};
ghost use Rattle.ep_tame_numbers.specs.Offsets.{KeepsOffsets};
ghost use Rattle.ep_tame_accesses.specs.Laws.{AccessesAreOfObjects};

use ep_domain::Num;

/// States that each access of a tame program that stays in its block is to an object of its type, over each domain that
/// keeps what offsets need, and does nothing.
pub fn access_laws<N: Num>()
    ensures { KeepsOffsets N.ops → ProductsKeepStrides N.ops → (p : Program) → IsBuilt p.types
        → IsTrue (are_tame_types p.types) → IsTrue (blocks_fit p.types p.blocks) → AccessesAreOfObjects N.ops p }
{}
