//! Good states of tame programs, and what keeps them. Laws alone.
#![tactic(auto)]

ghost use Rattle.std.specs.Prelude.{IsTrue};
ghost use Rattle.ep_int.specs.declared.types.Order.{Order};
ghost use Rattle.ep_layout.specs.Table.{IsBuilt};
ghost use Rattle.ep_core.specs.Program.{Program};
ghost use Rattle.ep_core.specs.Runs.{Side};
ghost use Rattle.ep_core.specs.WellFormed.{blocks_fit};
ghost use Rattle.ep_kinds.specs.Tame.{are_tame_types};
ghost use Rattle.ep_alarm_laws.specs.Laws.{ProductsKeepStrides};
ghost use Rattle.ep_tame_numbers.specs.Offsets.{KeepsOffsets};
ghost use Rattle.ep_tame_states.specs.Laws.{StateLaws};

use ep_domain::Num;

/// States what keeps good states: values in the same places, joins, widenings, and truths that are assumed, over each
/// domain that keeps what offsets need, and does nothing.
pub fn state_laws<N: Num>()
    ensures { KeepsOffsets N.ops → ProductsKeepStrides N.ops → (p : Program) → IsBuilt p.types
        → IsTrue (are_tame_types p.types) → IsTrue (blocks_fit p.types p.blocks) → (ord : Side → Order)
        → StateLaws N.ops p ord }
{}
