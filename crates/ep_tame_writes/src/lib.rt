//! What writes do to good states of tame programs. Laws alone.
#![tactic(auto)]

ghost use Rattle.std.specs.Prelude.{IsTrue};
ghost use Rattle.ep_int.specs.declared.types.Order.{Order};
ghost use Rattle.ep_layout.specs.Table.{IsBuilt};
ghost use Rattle.ep_core.specs.Program.{Program};
ghost use Rattle.ep_core.specs.Runs.{Side};
ghost use Rattle.ep_core.specs.WellFormed.{blocks_fit};
ghost use Rattle.ep_kinds.specs.Tame.{are_tame_types};
ghost use Rattle.ep_alarm_laws.specs.Laws.{ProductsKeepStrides};
ghost use Rattle.ep_tame_numbers.specs.Offsets.{KeepsOffsets};
ghost use Rattle.ep_tame_writes.specs.Laws.{WritesKeepGood, AssignmentsKeepGood};

use ep_domain::Num;

/// States that a good state stays one where a cell of both memories is written over one of its place and type, over
/// each domain that keeps what offsets need, and does nothing.
pub fn write_laws<N: Num>()
    ensures { KeepsOffsets N.ops → ProductsKeepStrides N.ops → (p : Program) → IsBuilt p.types
        → IsTrue (are_tame_types p.types) → IsTrue (blocks_fit p.types p.blocks) → (ord : Side → Order)
        → WritesKeepGood N.ops p ord }
{}

/// States that a good state stays one where a value goes to an address, both of them the same on both machines, over
/// each domain that keeps what offsets need, and does nothing.
pub fn assignment_laws<N: Num>()
    ensures { KeepsOffsets N.ops → ProductsKeepStrides N.ops → (p : Program) → IsBuilt p.types
        → IsTrue (are_tame_types p.types) → IsTrue (blocks_fit p.types p.blocks) → (ord : Side → Order)
        → AssignmentsKeepGood N.ops p ord }
{}
