//! Whether cells are what is known of two memories.

ghost use Rattle.std.specs.Prelude.{◌≡◌, ◌+◌, ◌↔◌, ◌≤◌, ◌∷◌, [], ◌||◌, not, nat_eq, nat_le, length, drop, true};
ghost use Rattle.std.specs.Prelude.{false, IsTrue, IfOk};
ghost use Rattle.std.specs.List.Sorted.{IsPartitionPoint};
ghost use Rattle.ep_cells.specs.Cells.{put_all};
ghost use Rattle.ep_cells.specs.States.{IsOfSort, HasWidth, IsCell, IsFormOf, HasForm, IsThere, Each, EachPair};
ghost use Rattle.ep_cells.specs.States.{AreApart, AreCells};
ghost use Rattle.ep_cell_changes.specs.Tests.{AreInOrder, is_before_name, is_sure_cell, AreThere};

use crate::reshare::is_integer;
use ep_bitslice::{CellName, Form, Segment};
use ep_cell_rows::places::{
    comes_before, end, is_same_scalar, is_same_side, key, meets, place_of, side_number,
};
use ep_cell_rows::rows::put_all;
use ep_cell_rows::values::rises;
use ep_cells::{ByteRange, Cell, Value};
use ep_domain::Num;
use ep_int::{Memory, Model, Scalar};
use std::alloc::Global;

// One more than the greatest offset.
const OFFSETS: u64 = 0x1_0000_0000;

fn is_some_of_sort<N: Num>(what: Scalar, v: &Value<N>) -> bool
    ensures { IsTrue result ↔ IsOfSort what (Some v.now) }
{
    match v {
        Value::Num(_) => is_integer(what),
        Value::Ptr(_) => !is_integer(what),
    }
}

fn is_of_sort<N: Num>(what: Scalar, v: &Option<Value<N>>) -> bool
    ensures { IsTrue result ↔ IsOfSort what v.now }
{
    match v {
        None => true,
        Some(v) => is_some_of_sort(what, v),
    }
}

/// Whether a cell fits, but for its form.
pub fn is_cell<N: Num>(model: Model, c: &Cell<N>) -> bool
    ensures { IsTrue result ↔ IsCell model c.now }
{
    rises(&c.value);
    let end = u64::from(c.offset) + u64::from(ep_int::size(model, c.what));
    is_of_sort(c.what, &c.value) & (c.value.is_some() | c.maybe) & (end <= OFFSETS)
}

fn each_is_cell<N: Num>(model: Model, cells: &[Cell<N>]) -> bool
    ensures { IsTrue result ↔ Each (IsCell model) cells.now }
{
    for c in cells {
        if !is_cell(model, c) {
            return false;
        }
    }
    true
}

/// Whether each cell comes before the next.
pub fn are_in_order<N: Num>(cells: &[Cell<N>]) -> bool
    ensures { IsTrue result ↔ AreInOrder cells.now }
{
    for i in 1..cells.len() {
        if !comes_before(&cells[i - 1], &cells[i]) {
            return false;
        }
    }
    true
}

/// The cells in order.
pub fn in_order<N: Num>(alloc: Global, cells: Vec<Cell<N>>) -> Result<Vec<Cell<N>>, Memory>
    ensures { IfOk result (λ v. v.items ≡ put_all cells.items []) }
{
    if are_in_order(&cells) {
        return Ok(cells);
    }
    let mut sorted = Vec::new(alloc);
    put_all(&mut sorted, cells)?;
    Ok(sorted)
}

// Whether a cell begins where a place ends, or later.
fn is_past<N: Num>(p: &ByteRange, y: &Cell<N>) -> bool
    ensures { result ≡ (not (nat_eq p.now.block y.now.block) || nat_le (p.now.offset + p.now.bytes) y.now.offset) }
{
    p.block != y.block || end(p) <= u64::from(y.offset)
}

// Whether no byte of the cell is in the cells after it.
fn is_apart<N: Num>(model: Model, x: &Cell<N>, rest: &[Cell<N>]) -> bool
    requires { AreInOrder (x.now ∷ rest.now) }
    ensures { IsTrue result ↔ Each (AreApart model x.now) rest.now }
{
    let place = place_of(model, x);
    for y in rest {
        if is_past(&place, y) {
            return true;
        }
        if meets(&place, &place_of(model, y)) {
            return false;
        }
    }
    true
}

fn after<N: Num>(cells: &[Cell<N>], n: usize) -> &[Cell<N>]
    requires { n ≤ length cells.now }
    ensures { result.now ≡ drop n cells.now }
{
    cells.split_at(n).1
}

fn are_apart<N: Num>(model: Model, cells: &[Cell<N>]) -> bool
    requires { AreInOrder cells.now }
    ensures { IsTrue result ↔ EachPair (AreApart model) cells.now }
{
    for i in 0..cells.len() {
        if !is_apart(model, &cells[i], after(cells, i + 1)) {
            return false;
        }
    }
    true
}

fn is_before_name<N: Num>(n: &CellName, c: &Cell<N>) -> bool
    ensures { result ≡ is_before_name n.now c.now }
{
    c.block < n.block
        || c.block == n.block && key(c) < 3 * u64::from(n.offset) + u64::from(side_number(n.side))
}

fn is_sure_cell<N: Num>(n: &CellName, c: &Cell<N>) -> bool
    ensures { result ≡ is_sure_cell n.now c.now }
{
    (is_same_side(c.side, n.side) && c.block == n.block)
        && (c.offset == n.offset && is_same_scalar(c.what, Scalar::Int(n.t)) && !c.maybe)
}

// How many cells come before that of a name.
fn place_of_name<N: Num>(n: &CellName, cells: &[Cell<N>]) -> usize
    requires { AreInOrder cells.now }
    ensures within { result ≤ length cells.now }
    ensures point { IsPartitionPoint (λ c. is_before_name n.now c ≡ true) (λ c. is_before_name n.now c ≡ false)
        cells.now result }
{
    cells.partition_point(|c| is_before_name(n, c))
}

// Whether the cell of a name is there, and surely defined.
fn is_there<N: Num>(n: &CellName, cells: &[Cell<N>]) -> bool
    requires { AreInOrder cells.now }
    ensures { IsTrue result ↔ IsThere n.now cells.now }
{
    let i = place_of_name(n, cells);
    i < cells.len() && is_sure_cell(n, &cells[i])
}

fn is_segment_there<N: Num>(s: &Segment, cells: &[Cell<N>]) -> bool
    requires { AreInOrder cells.now }
    ensures { IsTrue result ↔ AreThere cells.now (s.now ∷ []) }
{
    match s {
        Segment::Bits(n, _, _) => is_there(n, cells),
        Segment::Fixed(_, _) => true,
    }
}

fn are_there<N: Num>(segments: &[Segment], cells: &[Cell<N>]) -> bool
    requires { AreInOrder cells.now }
    ensures { IsTrue result ↔ AreThere cells.now segments.now }
{
    for s in segments {
        if !is_segment_there(s, cells) {
            return false;
        }
    }
    true
}

fn has_width(what: Scalar, width: u32) -> bool
    ensures { IsTrue result ↔ HasWidth what width }
{
    match what {
        Scalar::Int(t) => ep_int::bits(t) == width,
        Scalar::Pointer => false,
    }
}

fn is_form_of<N: Num>(f: &Form, c: &Cell<N>, cells: &[Cell<N>]) -> bool
    requires { AreInOrder cells.now }
    ensures { IsTrue result ↔ IsFormOf cells.now c.now f.now }
{
    !c.maybe & has_width(c.what, f.width()) & are_there(f.segments(), cells)
}

/// Whether a cell's form may be one among these cells, if it has one.
pub fn has_form<N: Num>(c: &Cell<N>, cells: &[Cell<N>]) -> bool
    requires { AreInOrder cells.now }
    ensures { IsTrue result ↔ HasForm cells.now c.now }
{
    match &c.form {
        None => true,
        Some(f) => is_form_of(f.form(), c, cells),
    }
}

fn have_forms<N: Num>(cells: &[Cell<N>]) -> bool
    requires { AreInOrder cells.now }
    ensures { IsTrue result ↔ Each (HasForm cells.now) cells.now }
{
    for c in cells {
        if !has_form(c, cells) {
            return false;
        }
    }
    true
}

/// Whether cells are in order, fit and don't overlap on a side, and forms mention cells that are there.
pub fn are_cells<N: Num>(model: Model, cells: &[Cell<N>]) -> bool
    ensures { IsTrue result ↔ AreCells model cells.now }
{
    if !are_in_order(cells) {
        return false;
    }
    each_is_cell(model, cells) & are_apart(model, cells) & have_forms(cells)
}
