//! New cells in parts.

ghost use Rattle.std.specs.Prelude.{◌≡◌, ◌<◌, suc, length, OnOk};
ghost use Rattle.ep_cells.specs.Cells.{put, put_all};
ghost use Rattle.ep_shared_parts.specs.Spread.{outlines, all_items, AreSpread, parts_to as the_parts_to};
ghost use Rattle.ep_shared_parts.specs.Mentions.{number_of};
ghost use Rattle.ep_cell_steps.specs.Killed.{AreShort};

use ep_cell_rows::rows;
use ep_cells::Cell;
use ep_domain::Num;
use ep_int::Memory;
use ep_shared_parts::numbers::number_at;
use ep_shared_parts::parts::{Part, make_room, parts_to};
use std::alloc::Global;
use std::rc::Rc;

/// Where the part is that takes a cell of this number.
pub fn place_for<N: Num>(parts: &[Part<Cell<N>>], k: u64) -> usize
    requires spread { AreSpread (outlines number_of parts.now) }
    requires some { 0 < the_parts_to k (outlines number_of parts.now) }
    ensures there { suc result ≡ the_parts_to k (outlines number_of parts.now) }
    ensures within { result < length parts.now }
{
    parts_to(parts, k) - 1
}

// Does nothing: its contract is that a number of 32 bits is one.
fn is_short(offset: u32)
    ensures { offset < 4294967296 }
{
    let _offset = offset;
}

// Puts a cell into a part, which is copied where it is shared.
fn put_into<N: Num>(alloc: Global, part: &mut Part<Cell<N>>, c: Cell<N>) -> Result<(), Memory>
    ensures start { OnOk result (part.new.start ≡ part.old.start) }
    ensures items { OnOk result (part.new.items.value.items ≡ put c part.old.items.value.items) }
{
    match Rc::get_mut(&mut part.items) {
        Some(cells) => {
            rows::put(cells, c)?;
            Ok(())
        }
        None => {
            let mut cells = rows::copied(alloc, &part.items)?;
            rows::put(&mut cells, c)?;
            part.items = Rc::new(alloc, cells).map_err(|_| Memory)?;
            Ok(())
        }
    }
}

fn put<N: Num>(alloc: Global, parts: &mut Vec<Part<Cell<N>>>, c: Cell<N>) -> Result<(), Memory>
    requires spread { AreSpread (outlines number_of parts.old.items) }
    requires short { AreShort (all_items parts.old.items) }
    ensures spread { OnOk result (AreSpread (outlines number_of parts.new.items)) }
    ensures items { OnOk result (all_items parts.new.items ≡ put c (all_items parts.old.items)) }
    ensures short { OnOk result (AreShort (all_items parts.new.items)) }
{
    is_short(c.offset);
    let k = number_at(c.block, c.offset);
    make_room(alloc, parts, k)?;
    let at = place_for(parts, k);
    put_into(alloc, &mut parts[at], c)?;
    Ok(())
}

/// Puts cells into their parts.
pub fn put_all<N: Num>(
    alloc: Global,
    parts: &mut Vec<Part<Cell<N>>>,
    more: Vec<Cell<N>>,
) -> Result<(), Memory>
    requires spread { AreSpread (outlines number_of parts.old.items) }
    requires short { AreShort (all_items parts.old.items) }
    ensures spread { OnOk result (AreSpread (outlines number_of parts.new.items)) }
    ensures items { OnOk result (all_items parts.new.items ≡ put_all more.items (all_items parts.old.items)) }
{
    let mut more = more;
    while let Some(c) = more.pop() {
        put(alloc, parts, c)?;
    }
    Ok(())
}
