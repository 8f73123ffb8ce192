//! Laws: functions that do nothing, with what their contracts state.

ghost use Rattle.ep_cell_ranges.specs.Laws.{TestLaws, NarrowLaws, SharedLaws, MoreSplitLaws, MoreWriteLaws};
ghost use Rattle.ep_cell_ranges.specs.Laws.{MoreWeakWriteLaws, MoreKillLaws, DropLaws, OverwriteLaws, ReplaceLaws};
ghost use Rattle.ep_cell_ranges.specs.Laws.{BlurLaws, BlurEachLaws, WeakEachLaws, TakenLaws, MoveLaws, FirstLaws};

use ep_domain::Num;

/// Does nothing: its contract is that the tests of cells tell what lists of cells have to be.
pub fn test_laws<N: Num>()
    ensures { TestLaws N }
{}

/// Does nothing: its contract is that cells may get narrower values, over every domain.
pub fn narrow_laws<N: Num>()
    ensures { NarrowLaws N.ops }
{}

/// Does nothing: its contract is that Shared cells have one value on both sides, over every domain.
pub fn shared_laws<N: Num>()
    ensures { SharedLaws N.ops }
{}

/// Does nothing: its contract is what becomes of forms that are held while cells are split, over every domain.
pub fn more_split_laws<N: Num>()
    ensures { MoreSplitLaws N.ops }
{}

/// Does nothing: its contract is what becomes of forms that are held while a cell is written, over every domain.
pub fn more_write_laws<N: Num>()
    ensures { MoreWriteLaws N.ops }
{}

/// Does nothing: its contract is what becomes of forms that are held while a cell may be written, over every domain.
pub fn more_weak_write_laws<N: Num>()
    ensures { MoreWeakWriteLaws N.ops }
{}

/// Does nothing: its contract is what becomes of forms that are held while a block is killed, over every domain.
pub fn more_kill_laws<N: Num>()
    ensures { MoreKillLaws N.ops }
{}

/// Does nothing: its contract is that forms may be dropped.
pub fn drop_laws<N: Num>()
    ensures { DropLaws N }
{}

/// Does nothing: its contract is the laws of new cells in a place that cuts no cell, over every domain.
pub fn overwrite_laws<N: Num>()
    ensures { OverwriteLaws N.ops }
{}

/// Does nothing: its contract is the laws of new cells in a place, over every domain.
pub fn replace_laws<N: Num>()
    ensures { ReplaceLaws N.ops }
{}

/// Does nothing: its contract is the laws of a place that may have been written, over every domain.
pub fn blur_laws<N: Num>()
    ensures { BlurLaws N.ops }
{}

/// Does nothing: its contract is the laws of several places of which one may have been written, over every domain.
pub fn blur_each_laws<N: Num>()
    ensures { BlurEachLaws N.ops }
{}

/// Does nothing: its contract is the laws of a cell that may be written at one of several places, over every domain.
pub fn weak_each_laws<N: Num>()
    ensures { WeakEachLaws N.ops }
{}

/// Does nothing: its contract is the laws of what copies take of a place, over every domain.
pub fn taken_laws<N: Num>()
    ensures { TakenLaws N.ops }
{}

/// Does nothing: its contract is the laws of new cells that are moved to another place, over every domain.
pub fn move_laws<N: Num>()
    ensures { MoveLaws N.ops }
{}

/// Does nothing: its contract is the laws of the cells that a program begins with, over every domain.
pub fn first_laws<N: Num>()
    ensures { FirstLaws N.ops }
{}
