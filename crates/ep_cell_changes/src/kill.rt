//! Killed blocks, cell by cell.

ghost use Rattle.std.specs.Prelude.{◌≡◌, ◌++◌, ◌∷◌, [], map, IfOk};
ghost use Rattle.ep_cells.specs.Cells.{each_becomes, parts_of, side_without as the_side_without};
ghost use Rattle.ep_cells.specs.Forms.{reformed};
ghost use Rattle.ep_cells.specs.Kill.{AreLeavesIn};
ghost use Rattle.ep_cells.specs.Kill.{without_target, killed_part, killed_pointer, left_by_kill, killed_cells};
ghost use Rattle.ep_cell_rows.specs.Parts.{fate_of};

use crate::entry::entry_cells;
use ep_bitslice::Side;
use ep_cell_rows::cell::reformed_on;
use ep_cell_rows::change::Change;
use ep_cell_rows::places::{share_memory, side_without};
use ep_cell_rows::rows::{push, push_side, put_all};
use ep_cell_rows::values::{has_target, value_without};
use ep_cells::Cell;
use ep_domain::Num;
use ep_int::{Memory, Model};
use ep_layout::Leaf;
use std::alloc::Global;

// The cell on this side, if a pointer without the target of the block.
fn without_target<N: Num>(x: &Cell<N>, side: Side, block: u32) -> Result<Cell<N>, Memory>
    ensures { IfOk result (λ z. z ≡ without_target block (record x.now { side = side })) }
{
    Ok(Cell {
        side,
        block: x.block,
        offset: x.offset,
        what: x.what,
        value: value_without(&x.value, block)?,
        maybe: true,
        form: None,
    })
}

fn killed_part<N: Num>(side: Side, block: u32, x: &Cell<N>, part: Side) -> Result<Cell<N>, Memory>
    ensures { IfOk result (λ z. z ≡ reformed (fate_of (Change.Kill side block))
        (killed_part side block (record x.now { side = part }))) }
{
    let change = Change::Kill(side, block);
    if share_memory(side, part) {
        without_target(x, part, block)
    } else {
        reformed_on(change, x, part)
    }
}

fn push_killed_both<N: Num>(
    out: &mut Vec<Cell<N>>,
    side: Side,
    block: u32,
    x: &Cell<N>,
) -> Result<(), Memory>
    ensures { IfOk result (λ _. out.new.items ≡ (out.old.items
        ++ reformed (fate_of (Change.Kill side block))
        (killed_part side block (record x.now { side = Side.Left })) ∷ [])
        ++ reformed (fate_of (Change.Kill side block))
        (killed_part side block (record x.now { side = Side.Right })) ∷ []) }
{
    push(out, killed_part(side, block, x, Side::Left)?)?;
    push(out, killed_part(side, block, x, Side::Right)?)
}

fn push_killed_parts<N: Num>(
    out: &mut Vec<Cell<N>>,
    side: Side,
    block: u32,
    x: &Cell<N>,
) -> Result<(), Memory>
    ensures { IfOk result (λ _. out.new.items ≡ out.old.items
        ++ map (reformed (fate_of (Change.Kill side block))) (map (killed_part side block) (parts_of x.now))) }
{
    match x.side {
        Side::Left => push(out, killed_part(side, block, x, Side::Left)?),
        Side::Right => push(out, killed_part(side, block, x, Side::Right)?),
        Side::Shared => push_killed_both(out, side, block, x),
    }
}

fn push_killed_pointer<N: Num>(
    out: &mut Vec<Cell<N>>,
    side: Side,
    block: u32,
    x: &Cell<N>,
) -> Result<(), Memory>
    ensures { IfOk result (λ _. out.new.items ≡ out.old.items ++ map (reformed (fate_of (Change.Kill side block)))
        (killed_pointer side block x.now (the_side_without side x.now.side))) }
{
    match side_without(side, x.side) {
        None => push(out, without_target(x, x.side, block)?),
        Some(_) => push_killed_parts(out, side, block, x),
    }
}

fn push_left_by_kill<N: Num>(
    out: &mut Vec<Cell<N>>,
    side: Side,
    block: u32,
    x: &Cell<N>,
) -> Result<(), Memory>
    ensures { IfOk result (λ _. out.new.items ≡ out.old.items
        ++ map (reformed (fate_of (Change.Kill side block))) (left_by_kill side block x.now)) }
{
    let change = Change::Kill(side, block);
    if x.block == block {
        push_side(out, change, x, side_without(side, x.side))
    } else if has_target(&x.value, block) {
        push_killed_pointer(out, side, block, x)
    } else {
        push_side(out, change, x, Some(x.side))
    }
}

/// What is left of cells where a block is killed.
pub fn left_by_kill<N: Num>(
    alloc: Global,
    side: Side,
    block: u32,
    cells: &[Cell<N>],
) -> Result<Vec<Cell<N>>, Memory>
    ensures { IfOk result (λ v. v.items
        ≡ map (reformed (fate_of (Change.Kill side block))) (each_becomes (left_by_kill side block) cells.now)) }
{
    let mut out = Vec::new(alloc);
    for x in cells {
        push_left_by_kill(&mut out, side, block, x)?;
    }
    Ok(out)
}

/// The cells where a block is killed.
pub fn killed<N: Num>(
    alloc: Global,
    model: Model,
    side: Side,
    block: u32,
    leaves: &[Leaf],
    size: u32,
    cells: &[Cell<N>],
) -> Result<Vec<Cell<N>>, Memory>
    requires { AreLeavesIn model 0 size leaves.now }
    ensures { IfOk result (λ v. v.items ≡ killed_cells model side block leaves.now size cells.now) }
{
    let mut left = left_by_kill(alloc, side, block, cells)?;
    put_all(
        &mut left,
        entry_cells(alloc, model, side, block, leaves, size)?,
    )?;
    Ok(left)
}
