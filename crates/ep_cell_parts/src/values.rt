//! A cell takes another value.

ghost use Rattle.std.specs.Prelude.{◌≡◌, IsTrue, is_some, map, List, IfOk, OnOk, OnErr};
ghost use Rattle.ep_cells.specs.States.{IsOfSort, AreCells};
ghost use Rattle.ep_shared_parts.specs.Spread.{outlines, all_items, AreSpread};
ghost use Rattle.ep_shared_parts.specs.Mentions.{number_of};
ghost use Rattle.ep_shared_parts.specs.declared.parts.Part.{Part};
ghost use Rattle.ep_shared_parts.specs.declared.uses.Use.{Use};
ghost use Rattle.ep_cell_steps.specs.PartsInvariant.{AreKept};
ghost use Rattle.ep_cell_parts.specs.Valued.{valued};

use ep_cell_rows::cell::copy_cell;
use ep_cell_rows::places::is_same_cell;
use ep_cell_rows::rows::push;
use ep_cell_rows::values::{copy_value, rises};
use ep_cells::Cell;
use ep_domain::Num;
use ep_int::{Memory, Model};
use ep_shared_parts::numbers::number_at;
use ep_shared_parts::parts::{Part, parts_to};
use std::alloc::Global;
use std::rc::Rc;

fn valued<N: Num>(c: &Cell<N>, x: &Cell<N>) -> Result<Cell<N>, Memory>
    ensures { IfOk result (λ y. y ≡ valued c.now c.now.value x.now) }
{
    let mut y = copy_cell(x)?;
    if is_same_cell(x, c) {
        y.value = copy_value(&c.value)?;
    }
    Ok(y)
}

fn all_valued<N: Num>(alloc: Global, c: &Cell<N>, cells: &[Cell<N>]) -> Result<Vec<Cell<N>>, Memory>
    ensures { IfOk result (λ v. v.items ≡ map (valued c.now c.now.value) cells.now) }
{
    let mut out = Vec::with_capacity(alloc, cells.len()).map_err(|_| Memory)?;
    for x in cells {
        push(&mut out, valued(c, x)?)?;
    }
    Ok(out)
}

fn part_valued<N: Num>(
    alloc: Global,
    c: &Cell<N>,
    part: &Part<Cell<N>>,
) -> Result<Part<Cell<N>>, Memory>
    ensures start { IfOk result (λ p. p.start ≡ part.now.start) }
    ensures items { IfOk result (λ p. p.items.value.items
        ≡ map (valued c.now c.now.value) part.now.items.value.items) }
{
    let cells = all_valued(alloc, c, &part.items)?;
    Ok(Part {
        start: part.start,
        items: Rc::new(alloc, cells).map_err(|_| Memory)?,
    })
}

/// The cell of the side, place and type of `c` takes the value of `c`. Where there is no memory all cells stay.
pub fn set_value_at<N: Num>(
    alloc: Global,
    model: Model,
    parts: &mut Vec<Part<Cell<N>>>,
    c: &Cell<N>,
) -> Result<(), Memory>
    requires sort { IsOfSort c.now.what c.now.value }
    requires some { IsTrue (is_some c.now.value) }
    requires spread { AreSpread (outlines number_of parts.old.items) }
    requires cells { AreCells model (all_items parts.old.items) }
    ensures kept { (us : List (Part Use)) → AreKept model parts.old.items us → AreKept model parts.new.items us }
    ensures ok { OnOk result (all_items parts.new.items
        ≡ map (valued c.now c.now.value) (all_items parts.old.items)) }
    ensures err { OnErr result (all_items parts.new.items ≡ all_items parts.old.items) }
{
    rises(&c.value);
    let i = parts_to(parts, number_at(c.block, c.offset));
    if i == 0 {
        return Ok(());
    }
    let part = part_valued(alloc, c, &parts[i - 1])?;
    parts[i - 1] = part;
    Ok(())
}
