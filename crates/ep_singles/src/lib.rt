//! Values and cells that stand for one thing alone, and what keeps them so: definitions and laws.
#![tactic(auto)]

ghost use Rattle.ep_singles.specs.CellLaws.{KillsKeepOne, NarrowsKeepOne, OverwritesKeepOne};
ghost use Rattle.ep_singles.specs.Laws.{ReadsAreOne};
ghost use Rattle.ep_singles.specs.WriteLaws.{ReplacesKeepOne, SplitsKeepOne};

use ep_domain::Num;

/// Does nothing: its contract is that what a machine finds is read as one value, without a doubt, over every domain.
pub fn single_reads<N: Num>()
    ensures { ReadsAreOne N.ops }
{}

/// Does nothing: its contract is that such a state stays one where a block is killed, a cell gets another value, and
/// new cells take a place, over every domain.
pub fn single_cells<N: Num>()
    ensures kills { KillsKeepOne N.ops }
    ensures narrows { NarrowsKeepOne N.ops }
    ensures overwrites { OverwritesKeepOne N.ops }
{}

/// Does nothing: its contract is that such a state stays one where cells that lie partly in a place are split, and
/// where new cells take a place, over every domain.
pub fn single_writes<N: Num>()
    ensures splits { SplitsKeepOne N.ops }
    ensures replaces { ReplacesKeepOne N.ops }
{}
