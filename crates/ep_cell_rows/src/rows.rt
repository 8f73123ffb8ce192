//! Lists of cells.

ghost use Rattle.std.specs.Prelude.{◌≡◌, ◌↔◌, ◌≤◌, ◌++◌, ◌∷◌, [], length, map, take, drop, IfOk, IsTrue, false};
ghost use Rattle.std.specs.Option.{option_map, option_map_or};
ghost use Rattle.ep_cells.specs.Cells.{place_of, put, put_all, each_becomes, with_side};
ghost use Rattle.ep_cells.specs.Forms.{reformed};
ghost use Rattle.ep_cells.specs.Look.{cell_at, is_some_partly_in};
ghost use Rattle.ep_cells.specs.Both.{cell_of_both, cells_of_both, is_cell_within, cell_like, are_within};
ghost use Rattle.ep_cells.specs.Write.{left_by_write, written};
ghost use Rattle.ep_cell_rows.specs.Parts.{united, fate_of};

use crate::cell::{self, copy_cell, is_equal, reformed_on};
use crate::change::Change;
use crate::places::{
    comes_before, covers, is_partly_in, is_same_cell, place_of, side_without, touches,
};
use crate::values::{Union, common_form, copy_value, is_form_kept, is_value_within};
use ep_bitslice::Side;
use ep_cells::{ByteRange, Cell};
use ep_domain::Num;
use ep_int::{Memory, Model};
use std::alloc::Global;

/// Puts a cell behind all others.
pub fn push<N: Num>(out: &mut Vec<Cell<N>>, c: Cell<N>) -> Result<(), Memory>
    ensures { IfOk result (λ _. out.new.items ≡ out.old.items ++ c ∷ []) }
{
    out.push(c).map_err(|_| Memory)
}

/// The same cells.
pub fn copied<N: Num>(alloc: Global, cells: &[Cell<N>]) -> Result<Vec<Cell<N>>, Memory>
    ensures { IfOk result (λ v. v.items ≡ cells.now) }
{
    let mut out = Vec::new(alloc);
    for c in cells {
        push(&mut out, copy_cell(c)?)?;
    }
    Ok(out)
}

/// Whether both are one list.
pub fn are_equal<N: Num>(xs: &[Cell<N>], ys: &[Cell<N>]) -> bool
    ensures { IsTrue result ↔ (xs.now ≡ ys.now) }
{
    if xs.len() != ys.len() {
        return false;
    }
    for i in 0..xs.len() {
        if !is_equal(&xs[i], &ys[i]) {
            return false;
        }
    }
    true
}

/// The cells with their forms under new names.
pub fn all_reformed<N: Num>(
    alloc: Global,
    change: Change,
    cells: &[Cell<N>],
) -> Result<Vec<Cell<N>>, Memory>
    ensures { IfOk result (λ v. v.items ≡ map (reformed (fate_of change)) cells.now) }
{
    let mut out = Vec::new(alloc);
    for x in cells {
        push(&mut out, reformed_on(change, x, x.side)?)?;
    }
    Ok(out)
}

/// The cell of that side, or Shared, that has the byte.
pub fn cell_at<N: Num>(
    model: Model,
    side: Side,
    block: u32,
    byte: u32,
    cells: &[Cell<N>],
) -> Option<&Cell<N>>
    ensures { option_map (λ c. c.now) result ≡ cell_at model side block byte cells.now }
{
    for c in cells {
        if covers(model, side, block, byte, c) {
            return Some(c);
        }
    }
    None
}

/// Whether some cell has bytes in the place, and others.
pub fn is_some_partly_in<N: Num>(model: Model, p: &ByteRange, cells: &[Cell<N>]) -> bool
    ensures { result ≡ is_some_partly_in model p.now cells.now }
{
    cells.iter().any(|c| is_partly_in(p, &place_of(model, c)))
}

/// Two cells of one side, place and type, put together.
pub fn cell_of_both<N: Num>(union: Union, x: &Cell<N>, y: &Cell<N>) -> Result<Cell<N>, Memory>
    ensures { IfOk result (λ z. z ≡ cell_of_both (united N.ops union) x.now y.now) }
{
    Ok(Cell {
        side: x.side,
        block: x.block,
        offset: x.offset,
        what: x.what,
        value: union.values(&x.value, &y.value)?,
        maybe: x.maybe || y.maybe,
        form: common_form(&x.form, &y.form)?,
    })
}

/// The cells of two states that have cells of the same sides, places and types, put together.
pub fn cells_of_both<N: Num>(
    alloc: Global,
    union: Union,
    xs: &[Cell<N>],
    ys: &[Cell<N>],
) -> Result<Vec<Cell<N>>, Memory>
    requires { length xs.now ≡ length ys.now }
    ensures { IfOk result (λ v. v.items ≡ cells_of_both (united N.ops union) xs.now ys.now) }
{
    let mut out = Vec::new(alloc);
    for i in 0..xs.len() {
        push(&mut out, cell_of_both(union, &xs[i], &ys[i])?)?;
    }
    Ok(out)
}

/// Whether a cell says all that the other does.
pub fn is_cell_within<N: Num>(x: &Cell<N>, y: &Cell<N>) -> bool
    ensures { result ≡ is_cell_within N.ops x.now y.now }
{
    is_value_within(&x.value, &y.value) && (!x.maybe || y.maybe) && is_form_kept(&x.form, &y.form)
}

fn has_within<N: Num>(xs: &[Cell<N>], y: &Cell<N>) -> bool
    ensures { result ≡ option_map_or (λ x. is_cell_within N.ops x y.now) (cell_like y.now xs.now) false }
{
    for x in xs {
        if is_same_cell(x, y) {
            return is_cell_within(x, y);
        }
    }
    false
}

/// Whether the first cells have each of the second, within it.
pub fn are_within<N: Num>(xs: &[Cell<N>], ys: &[Cell<N>]) -> bool
    ensures { result ≡ are_within N.ops xs.now ys.now }
{
    ys.iter().all(|y| has_within(xs, y))
}

// Where a cell is put.
fn place_for<N: Num>(cells: &[Cell<N>], c: &Cell<N>) -> usize
    ensures within { result ≤ length cells.now }
    ensures put { take result cells.now ++ c.now ∷ drop result cells.now ≡ put c.now cells.now }
{
    let mut i = 0;
    while i < cells.len() && !comes_before(c, &cells[i]) {
        i += 1;
    }
    i
}

/// Puts a cell into its place.
pub fn put<N: Num>(cells: &mut Vec<Cell<N>>, c: Cell<N>) -> Result<(), Memory>
    ensures { IfOk result (λ _. cells.new.items ≡ put c cells.old.items) }
{
    let i = place_for(cells, &c);
    cells.insert(i, c).map_err(|_| Memory)
}

/// Puts cells into their places.
pub fn put_all<N: Num>(cells: &mut Vec<Cell<N>>, more: Vec<Cell<N>>) -> Result<(), Memory>
    ensures { IfOk result (λ _. cells.new.items ≡ put_all more.items cells.old.items) }
{
    let mut more = more;
    while let Some(c) = more.pop() {
        put(cells, c)?;
    }
    Ok(())
}

/// Puts behind what is left of a cell on this side, with its form under new names.
pub fn push_side<N: Num>(
    out: &mut Vec<Cell<N>>,
    change: Change,
    x: &Cell<N>,
    side: Option<Side>,
) -> Result<(), Memory>
    ensures { IfOk result (λ _. out.new.items
        ≡ out.old.items ++ map (reformed (fate_of change)) (with_side x.now side)) }
{
    match side {
        None => Ok(()),
        Some(side) => {
            let value = copy_value(&x.value)?;
            let form = change.form(&x.form)?;
            let c = Cell {
                side,
                block: x.block,
                offset: x.offset,
                what: x.what,
                value,
                maybe: x.maybe,
                form,
            };
            out.push(c).map_err(|_| Memory)
        }
    }
}

fn push_left_by_write<N: Num>(
    out: &mut Vec<Cell<N>>,
    model: Model,
    p: ByteRange,
    x: &Cell<N>,
) -> Result<(), Memory>
    ensures { IfOk result (λ _. out.new.items
        ≡ out.old.items ++ map (reformed (fate_of (Change.Write p))) (left_by_write model p x.now)) }
{
    if touches(&p, &place_of(model, x)) {
        push_side(out, Change::Write(p), x, side_without(p.side, x.side))
    } else {
        push_side(out, Change::Write(p), x, Some(x.side))
    }
}

/// What is left of cells where a place is written.
pub fn left_by_write<N: Num>(
    alloc: Global,
    model: Model,
    p: ByteRange,
    cells: &[Cell<N>],
) -> Result<Vec<Cell<N>>, Memory>
    ensures { IfOk result (λ v. v.items
        ≡ map (reformed (fate_of (Change.Write p))) (each_becomes (left_by_write model p) cells.now)) }
{
    let mut out = Vec::with_capacity(alloc, cells.len()).map_err(|_| Memory)?;
    for x in cells {
        push_left_by_write(&mut out, model, p, x)?;
    }
    Ok(out)
}

/// The cells where one is written.
pub fn written<N: Num>(
    alloc: Global,
    model: Model,
    c: Cell<N>,
    cells: &[Cell<N>],
) -> Result<Vec<Cell<N>>, Memory>
    ensures { IfOk result (λ v. v.items ≡ written model c cells.now) }
{
    let place = place_of(model, &c);
    let mut left = left_by_write(alloc, model, place, cells)?;
    put(&mut left, cell::reformed(Change::Write(place), c))?;
    Ok(left)
}
