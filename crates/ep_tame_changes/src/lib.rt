//! What blocks that come and go do to good states of tame programs. Laws alone.
#![tactic(auto)]

ghost use Rattle.std.specs.Prelude.{IsTrue};
ghost use Rattle.ep_int.specs.declared.types.Order.{Order};
ghost use Rattle.ep_core.specs.Program.{Program};
ghost use Rattle.ep_core.specs.Runs.{Side};
ghost use Rattle.ep_core.specs.WellFormed.{blocks_fit};
ghost use Rattle.ep_tame_changes.specs.Laws.{BlocksKeepGood};

use ep_domain::Num;

/// States that a good state stays one where blocks come and go, over every domain, and does nothing.
pub fn change_laws<N: Num>()
    ensures { (p : Program) → IsTrue (blocks_fit p.types p.blocks) → (ord : Side → Order)
        → BlocksKeepGood N.ops p ord }
{}
