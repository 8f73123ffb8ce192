//! Writes to cells in parts.

ghost use Rattle.std.specs.Prelude.{◌≡◌, ◌<◌, ◌∷◌, [], IfOk, OnOk, OnErr};
ghost use Rattle.ep_cells.specs.States.{CanWrite};
ghost use Rattle.ep_cells.specs.Write.{written};
ghost use Rattle.ep_shared_parts.specs.Spread.{outlines, all_items, AreSpread, parts_to as the_parts_to};
ghost use Rattle.ep_shared_parts.specs.Mentions.{number_of, number_of_use};
ghost use Rattle.ep_cell_steps.specs.PartsInvariant.{AreKept};
ghost use Rattle.ep_cell_steps.specs.Writes.{AreWritten};

use crate::building::note_cell;
use crate::changes::{Parts, after};
use crate::putting::place_for;
use ep_bicells::cells::reach;
use ep_bicells::changes::{Step, plan};
use ep_cell_rows::places::place_of;
use ep_cell_rows::rows;
use ep_cell_rows::values::rises;
use ep_cells::Cell;
use ep_domain::Num;
use ep_int::{Memory, Model};
use ep_shared_parts::numbers::number_at;
use ep_shared_parts::parts::{Edit, Part, install, make_room, push};
use ep_shared_parts::uses::Use;
use std::alloc::Global;
use std::rc::Rc;

fn part_written<N: Num>(
    alloc: Global,
    model: Model,
    part: &Part<Cell<N>>,
    c: Cell<N>,
) -> Result<Part<Cell<N>>, Memory>
    ensures start { IfOk result (λ p. p.start ≡ part.now.start) }
    ensures items { IfOk result (λ p. p.items.value.items ≡ written model c part.now.items.value.items) }
{
    let cells = rows::written(alloc, model, c, &part.items)?;
    Ok(Part {
        start: part.start,
        items: Rc::new(alloc, cells).map_err(|_| Memory)?,
    })
}

fn edits_of_write<N: Num>(
    alloc: Global,
    model: Model,
    parts: &[Part<Cell<N>>],
    uses: &[Part<Use>],
    c: Cell<N>,
) -> Result<Vec<Edit<Cell<N>>>, Memory>
    requires spread { AreSpread (outlines number_of parts.now) }
    requires uses { AreSpread (outlines number_of_use uses.now) }
    requires some { 0 < the_parts_to (number_of c) (outlines number_of parts.now) }
    ensures { IfOk result (λ v. AreWritten N.ops model c (all_items uses.now) parts.now v.items) }
{
    let place = place_of(model, &c);
    let range = reach(&place);
    let mut edits = plan(&Step::Write(place), model, parts, uses, range, alloc)?;
    let at = place_for(parts, number_at(c.block, c.offset));
    let part = part_written(alloc, model, &parts[at], c)?;
    push(&mut edits, Edit { at, part })?;
    Ok(edits)
}

/// Writes a cell. Where there is no memory all cells stay.
pub fn write_at<N: Num>(
    alloc: Global,
    model: Model,
    parts: &mut Vec<Part<Cell<N>>>,
    uses: &mut Vec<Part<Use>>,
    c: Cell<N>,
) -> Result<(), Memory>
    requires kept { AreKept model parts.old.items uses.old.items }
    requires can { CanWrite model c (all_items parts.old.items) }
    ensures kept { AreKept model parts.new.items uses.new.items }
    ensures ok { OnOk result (all_items parts.new.items ≡ written model c (all_items parts.old.items)) }
    ensures err { OnErr result (all_items parts.new.items ≡ all_items parts.old.items) }
{
    rises(&c.value);
    make_room(alloc, parts, number_at(c.block, c.offset))?;
    note_cell(alloc, uses, &c)?;
    let edits = edits_of_write(alloc, model, parts, uses, c)?;
    install(parts, edits);
    Ok(())
}

fn alone<N: Num>(alloc: Global, c: Cell<N>) -> Result<Vec<Cell<N>>, Memory>
    ensures { IfOk result (λ v. v.items ≡ c ∷ []) }
{
    let mut out = Vec::with_capacity(alloc, 1).map_err(|_| Memory)?;
    push(&mut out, c)?;
    Ok(out)
}

/// The parts where a cell is written.
pub fn written<N: Num>(
    alloc: Global,
    model: Model,
    before: Parts<N>,
    c: Cell<N>,
) -> Result<Parts<N>, Memory>
    requires kept { AreKept model before.cells.items before.uses.items }
    requires can { CanWrite model c (all_items before.cells.items) }
    ensures items { IfOk result (λ v. all_items v.cells.items ≡ written model c (all_items before.cells.items)) }
    ensures kept { IfOk result (λ v. AreKept model v.cells.items v.uses.items) }
{
    rises(&c.value);
    let step = Step::Write(place_of(model, &c));
    let new = alone(alloc, c)?;
    let made = after(alloc, model, before, &step, &new)?;
    Ok(made)
}
