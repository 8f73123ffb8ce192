//! Shared cells that are met come apart.

ghost use Rattle.std.specs.Prelude.{◌≡◌, ◌++◌, map, Some, IfOk};
ghost use Rattle.ep_cells.specs.Cells.{each_becomes, parts_of, with_side};
ghost use Rattle.ep_cells.specs.Forms.{reformed};
ghost use Rattle.ep_cell_rows.specs.Parts.{fate_of};
ghost use Rattle.ep_bicells.specs.Steps.{left_by_unsharing};

use ep_bitslice::Side;
use ep_cell_rows::change::Change;
use ep_cell_rows::places::{place_of, touches};
use ep_cell_rows::rows::push_side;
use ep_cells::{ByteRange, Cell};
use ep_domain::Num;
use ep_int::{Memory, Model};
use std::alloc::Global;

fn push_both<N: Num>(out: &mut Vec<Cell<N>>, place: ByteRange, x: &Cell<N>) -> Result<(), Memory>
    ensures { IfOk result (λ _. out.new.items ≡ (out.old.items
        ++ map (reformed (fate_of (Change.Unshare place))) (with_side x.now (Some Side.Left)))
        ++ map (reformed (fate_of (Change.Unshare place))) (with_side x.now (Some Side.Right))) }
{
    push_side(out, Change::Unshare(place), x, Some(Side::Left))?;
    push_side(out, Change::Unshare(place), x, Some(Side::Right))?;
    Ok(())
}

fn push_parts<N: Num>(out: &mut Vec<Cell<N>>, place: ByteRange, x: &Cell<N>) -> Result<(), Memory>
    ensures { IfOk result (λ _. out.new.items
        ≡ out.old.items ++ map (reformed (fate_of (Change.Unshare place))) (parts_of x.now)) }
{
    match x.side {
        Side::Left => {
            push_side(out, Change::Unshare(place), x, Some(x.side))?;
            Ok(())
        }
        Side::Right => {
            push_side(out, Change::Unshare(place), x, Some(x.side))?;
            Ok(())
        }
        Side::Shared => {
            push_both(out, place, x)?;
            Ok(())
        }
    }
}

fn push_left<N: Num>(
    out: &mut Vec<Cell<N>>,
    model: Model,
    place: ByteRange,
    x: &Cell<N>,
) -> Result<(), Memory>
    ensures { IfOk result (λ _. out.new.items ≡ out.old.items
        ++ map (reformed (fate_of (Change.Unshare place))) (left_by_unsharing model place x.now)) }
{
    if touches(&place, &place_of(model, x)) {
        push_parts(out, place, x)
    } else {
        push_side(out, Change::Unshare(place), x, Some(x.side))
    }
}

/// What is left of cells where Shared ones that are met come apart.
pub(crate) fn left_by_unsharing<N: Num>(
    alloc: Global,
    model: Model,
    place: ByteRange,
    cells: &[Cell<N>],
) -> Result<Vec<Cell<N>>, Memory>
    ensures { IfOk result (λ v. v.items ≡ map (reformed (fate_of (Change.Unshare place)))
        (each_becomes (left_by_unsharing model place) cells.now)) }
{
    let mut out = Vec::with_capacity(alloc, cells.len()).map_err(|_| Memory)?;
    for x in cells {
        push_left(&mut out, model, place, x)?;
    }
    Ok(out)
}
