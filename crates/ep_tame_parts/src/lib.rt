//! Where the cells of an object lie in an object round it. Laws alone.
#![tactic(auto)]

ghost use Rattle.ep_tame_parts.specs.Laws.{PartsHaveCells, LeavesAreScalars};

/// States that an object in another one of a tame program has its own cells there, and that each of its leaves is a
/// scalar, and does nothing.
pub fn part_cells()
    ensures cells { PartsHaveCells }
    ensures scalars { LeavesAreScalars }
{}
