//! Left and Right cells that become Shared ones.

ghost use Rattle.std.specs.Prelude.{◌≡◌, ◌++◌, ◌∷◌, [], ◌||◌, map, IfOk};
ghost use Rattle.std.specs.Option.{option_map, option_map_or};
ghost use Rattle.ep_cells.specs.Cells.{each_becomes, put};
ghost use Rattle.ep_cells.specs.Forms.{reformed};
ghost use Rattle.ep_cells.specs.Reshare.{is_integer, are_same, reshared_cell, left_by_reshare, fate_by_reshare};
ghost use Rattle.ep_cell_rows.specs.Parts.{fate_of};
ghost use Rattle.ep_cells.specs.Reshare.{cell_from, reshared_at, places, reshared};

use ep_bitslice::Side;
use ep_cell_rows::cell::reformed;
use ep_cell_rows::change::Change;
use ep_cell_rows::places::{is_same_scalar, is_same_side};
use ep_cell_rows::rows::{push, push_side, put};
use ep_cell_rows::values::{are_one_number, common_form, keep_same_form, met_value};
use ep_cells::Cell;
use ep_domain::Num;
use ep_int::{Memory, Scalar};
use std::alloc::Global;

pub(crate) fn is_integer(what: Scalar) -> bool
    ensures { result ≡ is_integer what }
{
    match what {
        Scalar::Int(_) => true,
        Scalar::Pointer => false,
    }
}

/// Whether a Left and a Right cell of one place are integers of one type and surely the same number.
pub fn are_same<N: Num>(l: &Cell<N>, r: &Cell<N>) -> bool
    ensures { result ≡ are_same N.ops l.now r.now }
{
    (is_integer(l.what) && is_same_scalar(l.what, r.what))
        && (keep_same_form(&l.form, &r.form) || are_one_number(&l.value, &r.value))
}

/// The Shared cell that they become.
pub fn reshared_cell<N: Num>(l: &Cell<N>, r: &Cell<N>) -> Result<Cell<N>, Memory>
    ensures { IfOk result (λ x. x ≡ reshared_cell N.ops l.now r.now) }
{
    Ok(Cell {
        side: Side::Shared,
        block: l.block,
        offset: l.offset,
        what: l.what,
        value: met_value(&l.value, &r.value)?,
        maybe: l.maybe || r.maybe,
        form: common_form(&l.form, &r.form)?,
    })
}

/// What becomes of mentions of the two.
pub fn change_by_reshare<N: Num>(l: &Cell<N>, r: &Cell<N>) -> Change
    ensures { result ≡ Change.Reshare l.now.block l.now.offset (l.now.maybe || r.now.maybe) }
{
    Change::Reshare(l.block, l.offset, l.maybe || r.maybe)
}

fn push_left_by_reshare<N: Num>(
    out: &mut Vec<Cell<N>>,
    change: Change,
    l: &Cell<N>,
    x: &Cell<N>,
) -> Result<(), Memory>
    ensures { IfOk result (λ _. out.new.items
        ≡ out.old.items ++ map (reformed (fate_of change)) (left_by_reshare l.now x.now)) }
{
    if x.block == l.block && x.offset == l.offset {
        Ok(())
    } else {
        push_side(out, change, x, Some(x.side))
    }
}

/// What is left of cells where those that begin with this one become a Shared one, with their forms under new names.
pub fn left_by_reshare<N: Num>(
    alloc: Global,
    change: Change,
    l: &Cell<N>,
    cells: &[Cell<N>],
) -> Result<Vec<Cell<N>>, Memory>
    ensures { IfOk result (λ v. v.items
        ≡ map (reformed (fate_of change)) (each_becomes (left_by_reshare l.now) cells.now)) }
{
    let mut out = Vec::with_capacity(alloc, cells.len()).map_err(|_| Memory)?;
    for x in cells {
        push_left_by_reshare(&mut out, change, l, x)?;
    }
    Ok(out)
}

fn reshared_pair<N: Num>(
    alloc: Global,
    l: &Cell<N>,
    r: &Cell<N>,
    cells: &[Cell<N>],
) -> Result<Vec<Cell<N>>, Memory>
    ensures { IfOk result (λ v. v.items ≡ map (reformed (fate_by_reshare l.now r.now))
        (put (reshared_cell N.ops l.now r.now) (each_becomes (left_by_reshare l.now) cells.now))) }
{
    let change = change_by_reshare(l, r);
    let mut out = left_by_reshare(alloc, change, l, cells)?;
    put(&mut out, reformed(change, reshared_cell(l, r)?))?;
    Ok(out)
}

/// The cell of a side that begins at an offset.
pub fn cell_from<N: Num>(side: Side, block: u32, offset: u32, cells: &[Cell<N>]) -> Option<&Cell<N>>
    ensures { option_map (λ c. c.now) result ≡ cell_from side block offset cells.now }
{
    for c in cells {
        if is_same_side(c.side, side) && c.block == block && c.offset == offset {
            return Some(c);
        }
    }
    None
}

/// The cells with those of one place reshared. None where they stay as they are.
pub fn reshared_at<N: Num>(
    alloc: Global,
    block: u32,
    offset: u32,
    cells: &[Cell<N>],
) -> Result<Option<Vec<Cell<N>>>, Memory>
    ensures { IfOk result (λ o. option_map_or (λ v. v.items) o cells.now
        ≡ reshared_at N.ops block offset cells.now) }
{
    let Some(l) = cell_from(Side::Left, block, offset, cells) else {
        return Ok(None);
    };
    let Some(r) = cell_from(Side::Right, block, offset, cells) else {
        return Ok(None);
    };
    if !are_same(l, r) {
        return Ok(None);
    }
    Ok(Some(reshared_pair(alloc, l, r, cells)?))
}

fn push_place<N: Num>(out: &mut Vec<(u32, u32)>, c: &Cell<N>) -> Result<(), Memory>
    ensures { IfOk result (λ _. out.new.items ≡ out.old.items ++ places (c.now ∷ [])) }
{
    if is_same_side(c.side, Side::Left) {
        out.push((c.block, c.offset)).map_err(|_| Memory)
    } else {
        Ok(())
    }
}

/// The places at which Left cells begin, in the order of the cells.
pub fn places<N: Num>(alloc: Global, cells: &[Cell<N>]) -> Result<Vec<(u32, u32)>, Memory>
    ensures { IfOk result (λ v. v.items ≡ places cells.now) }
{
    let mut out = Vec::new(alloc);
    for c in cells {
        push_place(&mut out, c)?;
    }
    Ok(out)
}

fn reshared_or_same<N: Num>(
    alloc: Global,
    block: u32,
    offset: u32,
    cells: Vec<Cell<N>>,
) -> Result<Vec<Cell<N>>, Memory>
    ensures { IfOk result (λ v. v.items ≡ reshared_at N.ops block offset cells.items) }
{
    match reshared_at(alloc, block, offset, &cells)? {
        None => Ok(cells),
        Some(after) => Ok(after),
    }
}

/// The cells with those of each place in turn reshared.
pub fn reshared<N: Num>(alloc: Global, cells: Vec<Cell<N>>) -> Result<Vec<Cell<N>>, Memory>
    ensures { IfOk result (λ v. v.items ≡ reshared N.ops cells.items) }
{
    let places = places(alloc, &cells)?;
    let mut cells = cells;
    for p in &places {
        cells = reshared_or_same(alloc, p.0, p.1, cells)?;
    }
    Ok(cells)
}
