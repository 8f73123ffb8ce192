//! Cells of parts that may touch a place.

ghost use Rattle.std.specs.Prelude.{map, IfOk};
ghost use Rattle.ep_int.specs.declared.types.Model.{Model};
ghost use Rattle.ep_cells.specs.States.{AreCells};
ghost use Rattle.ep_shared_parts.specs.Spread.{outlines, all_items, AreSpread};
ghost use Rattle.ep_shared_parts.specs.Mentions.{number_of};
ghost use Rattle.ep_cell_parts.specs.About.{IsAbout};

use ep_bicells::cells::{all, reach};
use ep_cells::{ByteRange, Cell};
use ep_domain::Num;
use ep_int::Memory;
use ep_shared_parts::parts::{Part, window};
use std::alloc::Global;

/// The cells that may touch a place, where they stand, and some about them.
pub fn about<'a, N: Num>(
    alloc: Global,
    parts: &'a [Part<Cell<N>>],
    place: &ByteRange,
) -> Result<Vec<&'a Cell<N>>, Memory>
    requires { AreSpread (outlines number_of parts.now) }
    ensures { IfOk result (λ v. (d : Model) → AreCells d (all_items parts.now)
        → IsAbout d place.now (all_items parts.now) (map (λ r. r.now) v.items)) }
{
    let range = reach(place);
    let cells = all(alloc, window(parts, range.0, range.1))?;
    Ok(cells)
}
