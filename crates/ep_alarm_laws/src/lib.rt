//! Of which kinds the faults of operations on what is known of the cells of two memories are: laws alone.
#![tactic(auto)]

ghost use Rattle.std.specs.Prelude.{false};
ghost use Rattle.ep_alarm_laws.specs.Laws.{CellsAreHonest, EvenCellsAreHonest};

use ep_domain::Num;

/// Does nothing: its contract is that every fault of a typed statement, test, call or end of main is of a kind that its
/// text may have, over every domain.
pub fn honest_laws<N: Num>()
    ensures cells { CellsAreHonest N.ops false }
    ensures even { EvenCellsAreHonest N.ops }
{}
