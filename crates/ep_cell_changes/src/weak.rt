//! Weak writes, cell by cell.

ghost use Rattle.std.specs.Prelude.{◌≡◌, ◌++◌, map, true, IfOk};
ghost use Rattle.ep_cells.specs.Cells.{each_becomes, parts_of, place_of as the_place};
ghost use Rattle.ep_cells.specs.Forms.{reformed};
ghost use Rattle.ep_cells.specs.Weaken.{blurred, with_join, weak_cell, weak_part, left_by_weak_write};
ghost use Rattle.ep_cell_rows.specs.Parts.{fate_of};

use ep_bitslice::Side;
use ep_cell_rows::cell::reformed;
use ep_cell_rows::change::Change;
use ep_cell_rows::places::{is_same_place, place_of, share_memory, touches};
use ep_cell_rows::rows::{push, push_side};
use ep_cell_rows::values::Union;
use ep_cells::{Cell, Value};
use ep_domain::Num;
use ep_int::{IntType, Memory, Model, Scalar};
use std::alloc::Global;

fn with_join<N: Num>(c: &Cell<N>, x: &Cell<N>, side: Side) -> Result<Cell<N>, Memory>
    ensures { IfOk result (λ z. z ≡ with_join N.ops c.now (record x.now { side = side })) }
{
    Ok(Cell {
        side,
        block: x.block,
        offset: x.offset,
        what: x.what,
        value: Union::Join.values(&x.value, &c.value)?,
        maybe: x.maybe || c.maybe,
        form: None,
    })
}

fn top_cell<N: Num>(x: &Cell<N>, side: Side, t: IntType) -> Cell<N>
    ensures { result ≡ record {
      side = side;
      block = x.now.block;
      offset = x.now.offset;
      what = x.now.what;
      value = Some (Value.Num (N.ops.top t));
      maybe = true;
      form = None;
    } }
{
    Cell {
        side,
        block: x.block,
        offset: x.offset,
        what: x.what,
        value: Some(Value::Num(N::top(t))),
        maybe: true,
        form: None,
    }
}

fn push_blurred<N: Num>(
    out: &mut Vec<Cell<N>>,
    change: Change,
    x: &Cell<N>,
    side: Side,
) -> Result<(), Memory>
    ensures { IfOk result (λ _. out.new.items ≡ out.old.items
        ++ map (reformed (fate_of change)) (blurred N.ops (record x.now { side = side }) x.now.what)) }
{
    match x.what {
        Scalar::Int(t) => push(out, reformed(change, top_cell(x, side, t))),
        Scalar::Pointer => Ok(()),
    }
}

fn push_weak_cell<N: Num>(
    out: &mut Vec<Cell<N>>,
    change: Change,
    c: &Cell<N>,
    x: &Cell<N>,
    side: Side,
) -> Result<(), Memory>
    ensures { IfOk result (λ _. out.new.items ≡ out.old.items
        ++ map (reformed (fate_of change)) (weak_cell N.ops c.now (record x.now { side = side }))) }
{
    if is_same_place(c, x) {
        push(out, reformed(change, with_join(c, x, side)?))
    } else {
        push_blurred(out, change, x, side)
    }
}

fn push_weak_part<N: Num>(
    out: &mut Vec<Cell<N>>,
    change: Change,
    c: &Cell<N>,
    x: &Cell<N>,
    side: Side,
) -> Result<(), Memory>
    ensures { IfOk result (λ _. out.new.items ≡ out.old.items
        ++ map (reformed (fate_of change)) (weak_part N.ops c.now (record x.now { side = side }))) }
{
    if share_memory(c.side, side) {
        push_weak_cell(out, change, c, x, side)
    } else {
        push_side(out, change, x, Some(side))
    }
}

fn push_both_parts<N: Num>(
    out: &mut Vec<Cell<N>>,
    change: Change,
    c: &Cell<N>,
    x: &Cell<N>,
) -> Result<(), Memory>
    ensures { IfOk result (λ _. out.new.items ≡ (out.old.items
        ++ map (reformed (fate_of change)) (weak_part N.ops c.now (record x.now { side = Side.Left })))
        ++ map (reformed (fate_of change)) (weak_part N.ops c.now (record x.now { side = Side.Right }))) }
{
    push_weak_part(out, change, c, x, Side::Left)?;
    push_weak_part(out, change, c, x, Side::Right)?;
    Ok(())
}

fn push_weak_parts<N: Num>(
    out: &mut Vec<Cell<N>>,
    change: Change,
    c: &Cell<N>,
    x: &Cell<N>,
) -> Result<(), Memory>
    ensures { IfOk result (λ _. out.new.items ≡ out.old.items
        ++ map (reformed (fate_of change)) (each_becomes (weak_part N.ops c.now) (parts_of x.now))) }
{
    match x.side {
        Side::Left => {
            push_weak_part(out, change, c, x, Side::Left)?;
            Ok(())
        }
        Side::Right => {
            push_weak_part(out, change, c, x, Side::Right)?;
            Ok(())
        }
        Side::Shared => {
            push_both_parts(out, change, c, x)?;
            Ok(())
        }
    }
}

fn push_left<N: Num>(
    out: &mut Vec<Cell<N>>,
    model: Model,
    c: &Cell<N>,
    stays: bool,
    x: &Cell<N>,
) -> Result<(), Memory>
    ensures { IfOk result (λ _. out.new.items ≡ out.old.items
        ++ map (reformed (fate_of (Change.WeakWrite (the_place model c.now))))
        (left_by_weak_write N.ops model c.now stays x.now)) }
{
    let place = place_of(model, c);
    let change = Change::WeakWrite(place);
    if !touches(&place, &place_of(model, x)) {
        push_side(out, change, x, Some(x.side))
    } else if stays && is_same_place(c, x) {
        push_weak_cell(out, change, c, x, x.side)
    } else {
        push_weak_parts(out, change, c, x)
    }
}

/// What is left of cells where a cell may be written.
pub fn left_by_weak_write<N: Num>(
    alloc: Global,
    model: Model,
    c: &Cell<N>,
    stays: bool,
    cells: &[Cell<N>],
) -> Result<Vec<Cell<N>>, Memory>
    ensures { IfOk result (λ v. v.items ≡ map (reformed (fate_of (Change.WeakWrite (the_place model c.now))))
        (each_becomes (left_by_weak_write N.ops model c.now stays) cells.now)) }
{
    let mut out = Vec::with_capacity(alloc, cells.len()).map_err(|_| Memory)?;
    for x in cells {
        push_left(&mut out, model, c, stays, x)?;
    }
    Ok(out)
}
