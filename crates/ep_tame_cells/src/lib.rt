//! Cells of tame programs: what both memories share, shapes, blocks, reads and heads. Laws alone.
#![tactic(auto)]

ghost use Rattle.ep_tame_cells.specs.BlockLaws.{BlockLaws};
ghost use Rattle.ep_tame_cells.specs.HeadLaws.{HeadLaws};
ghost use Rattle.ep_tame_cells.specs.Laws.{ShapeLaws};
ghost use Rattle.ep_tame_cells.specs.RankLaws.{RankLaws};
ghost use Rattle.ep_tame_cells.specs.ReadLaws.{ReadLaws};
ghost use Rattle.ep_tame_cells.specs.SharedLaws.{SharedLaws};

use ep_domain::Num;

/// States what holds of cells of both memories alone, over every domain, and does nothing.
pub fn shared_laws<N: Num>()
    ensures { SharedLaws N.ops }
{}

/// States that the rank of a widened state falls, over every domain whose ranks are small, and does nothing.
pub fn rank_laws<N: Num>()
    ensures { RankLaws N.ops }
{}

/// States what keeps the places of a tame program's cells, over every domain, and does nothing.
pub fn shape_laws<N: Num>()
    ensures { ShapeLaws N.ops }
{}

/// States what a block that is entered or left does to the places of a tame program's cells, over every domain, and
/// does nothing.
pub fn block_laws<N: Num>()
    ensures { BlockLaws N.ops }
{}

/// States what is read at leaves of blocks, on both sides, over every domain, and does nothing.
pub fn read_laws<N: Num>()
    ensures { ReadLaws N.ops }
{}

/// States what joins and heads of loops do to states of a tame program, over every domain, and does nothing.
pub fn head_laws<N: Num>()
    ensures { HeadLaws N.ops }
{}
