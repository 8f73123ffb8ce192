//! Cells of a place that may have been written in whatever way.

ghost use Rattle.std.specs.Prelude.{◌≡◌, ◌++◌, map, true, Some, None, IfOk};
ghost use Rattle.ep_cells.specs.Cells.{each_becomes, parts_of};
ghost use Rattle.ep_cells.specs.Forms.{reformed};
ghost use Rattle.ep_cells.specs.Weaken.{blurred};
ghost use Rattle.ep_cell_rows.specs.Parts.{fate_of};
ghost use Rattle.ep_cell_ranges.specs.Ranges.{blurred_part, left_by_blur};

use ep_bitslice::Side;
use ep_cell_rows::change::Change;
use ep_cell_rows::places::{place_of, share_memory, touches};
use ep_cell_rows::rows::{push, push_side};
use ep_cells::{ByteRange, Cell, Value};
use ep_domain::Num;
use ep_int::{IntType, Memory, Model, Scalar};
use std::alloc::Global;

fn top_cell<N: Num>(x: &Cell<N>, side: Side, t: IntType) -> Cell<N>
    ensures { result ≡ record {
      side = side;
      block = x.now.block;
      offset = x.now.offset;
      what = x.now.what;
      value = Some (Value.Num (N.ops.top t));
      maybe = true;
      form = None;
    } }
{
    Cell {
        side,
        block: x.block,
        offset: x.offset,
        what: x.what,
        value: Some(Value::Num(N::top(t))),
        maybe: true,
        form: None,
    }
}

// A cell that may have any value has no form, so that no new names are needed.
fn push_blurred<N: Num>(
    out: &mut Vec<Cell<N>>,
    change: Change,
    x: &Cell<N>,
    side: Side,
) -> Result<(), Memory>
    ensures { IfOk result (λ _. out.new.items ≡ out.old.items
        ++ map (reformed (fate_of change)) (blurred N.ops (record x.now { side = side }) x.now.what)) }
{
    match x.what {
        Scalar::Int(t) => push(out, top_cell(x, side, t)),
        Scalar::Pointer => Ok(()),
    }
}

fn push_part<N: Num>(
    out: &mut Vec<Cell<N>>,
    place: ByteRange,
    x: &Cell<N>,
    side: Side,
) -> Result<(), Memory>
    ensures { IfOk result (λ _. out.new.items ≡ out.old.items
        ++ map (reformed (fate_of (Change.WeakWrite place)))
        (blurred_part N.ops place.side (record x.now { side = side }))) }
{
    if share_memory(place.side, side) {
        push_blurred(out, Change::WeakWrite(place), x, side)
    } else {
        push_side(out, Change::WeakWrite(place), x, Some(side))
    }
}

fn push_both<N: Num>(out: &mut Vec<Cell<N>>, place: ByteRange, x: &Cell<N>) -> Result<(), Memory>
    ensures { IfOk result (λ _. out.new.items ≡ (out.old.items
        ++ map (reformed (fate_of (Change.WeakWrite place)))
        (blurred_part N.ops place.side (record x.now { side = Side.Left })))
        ++ map (reformed (fate_of (Change.WeakWrite place)))
        (blurred_part N.ops place.side (record x.now { side = Side.Right }))) }
{
    push_part(out, place, x, Side::Left)?;
    push_part(out, place, x, Side::Right)?;
    Ok(())
}

fn push_parts<N: Num>(out: &mut Vec<Cell<N>>, place: ByteRange, x: &Cell<N>) -> Result<(), Memory>
    ensures { IfOk result (λ _. out.new.items ≡ out.old.items
        ++ map (reformed (fate_of (Change.WeakWrite place)))
        (each_becomes (blurred_part N.ops place.side) (parts_of x.now))) }
{
    match x.side {
        Side::Left => {
            push_part(out, place, x, Side::Left)?;
            Ok(())
        }
        Side::Right => {
            push_part(out, place, x, Side::Right)?;
            Ok(())
        }
        Side::Shared => {
            push_both(out, place, x)?;
            Ok(())
        }
    }
}

fn push_left<N: Num>(
    out: &mut Vec<Cell<N>>,
    model: Model,
    place: ByteRange,
    x: &Cell<N>,
) -> Result<(), Memory>
    ensures { IfOk result (λ _. out.new.items ≡ out.old.items
        ++ map (reformed (fate_of (Change.WeakWrite place))) (left_by_blur N.ops model place x.now)) }
{
    if touches(&place, &place_of(model, x)) {
        push_parts(out, place, x)
    } else {
        push_side(out, Change::WeakWrite(place), x, Some(x.side))
    }
}

/// What is left of cells where a place may have been written.
pub fn left_by_blur<N: Num>(
    alloc: Global,
    model: Model,
    place: ByteRange,
    cells: &[Cell<N>],
) -> Result<Vec<Cell<N>>, Memory>
    ensures { IfOk result (λ v. v.items ≡ map (reformed (fate_of (Change.WeakWrite place)))
        (each_becomes (left_by_blur N.ops model place) cells.now)) }
{
    let mut out = Vec::with_capacity(alloc, cells.len()).map_err(|_| Memory)?;
    for x in cells {
        push_left(&mut out, model, place, x)?;
    }
    Ok(out)
}
