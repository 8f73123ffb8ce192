//! What statements without statements in them do to good states of tame programs. Laws alone.
#![tactic(auto)]

ghost use Rattle.std.specs.Prelude.{◌<◌, IsTrue};
ghost use Rattle.ep_int.specs.declared.types.Order.{Order};
ghost use Rattle.ep_layout.specs.Table.{IsBuilt};
ghost use Rattle.ep_core.specs.Program.{Program};
ghost use Rattle.ep_core.specs.Runs.{Side};
ghost use Rattle.ep_core.specs.WellFormed.{is_well_formed};
ghost use Rattle.ep_kinds.specs.Tame.{are_tame_types};
ghost use Rattle.ep_alarm_laws.specs.Laws.{ProductsKeepStrides};
ghost use Rattle.ep_tame_numbers.specs.Offsets.{KeepsOffsets};
ghost use Rattle.ep_tame_statements.specs.Laws.{StatementsKeepGood};

use ep_domain::Num;

/// States that each tame statement without statements in it keeps good states and has faults of undefined behaviour
/// alone, over each domain of small height that keeps what offsets need, and does nothing.
pub fn statement_laws<N: Num>()
    ensures { KeepsOffsets N.ops → ProductsKeepStrides N.ops → N.ops.height < 4294967295 → (p : Program)
        → IsTrue (is_well_formed p) → IsBuilt p.types → IsTrue (are_tame_types p.types) → (ord : Side → Order)
        → StatementsKeepGood N.ops p ord }
{}
