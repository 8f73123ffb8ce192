//! Laws: functions that do nothing, with what their contracts state.

ghost use Rattle.ep_cells.specs.Laws.{WriteLaws, WeakWriteLaws, JoinLaws, InclusionLaws, KillLaws, ReshareLaws};

use ep_domain::Num;

/// Does nothing: its contract is the laws of writes, over every domain.
pub fn write_laws<N: Num>()
    ensures { WriteLaws N.ops }
{}

/// Does nothing: its contract is the laws of joins and widenings, over every domain.
pub fn join_laws<N: Num>()
    ensures { JoinLaws N.ops }
{}

/// Does nothing: its contract is that inclusion is inclusion, over every domain.
pub fn inclusion_laws<N: Num>()
    ensures { InclusionLaws N.ops }
{}

/// Does nothing: its contract is the laws of weak writes, over every domain.
pub fn weak_write_laws<N: Num>()
    ensures { WeakWriteLaws N.ops }
{}

/// Does nothing: its contract is the laws of killed blocks, over every domain.
pub fn kill_laws<N: Num>()
    ensures { KillLaws N.ops }
{}

/// Does nothing: its contract is the laws of resharing, over every domain.
pub fn reshare_laws<N: Num>()
    ensures { ReshareLaws N.ops }
{}
