//! The cells of one place go to another.

ghost use Rattle.std.specs.Prelude.{◌≡◌, ◌≤◌, ◌+◌, ◌^◌, ◌&&◌, map, IfOk};
ghost use Rattle.ep_cell_ranges.specs.Moves.{moved_to, place_at, taken};
ghost use Rattle.ep_cell_ranges.specs.Ranges.{replaced};
ghost use Rattle.ep_cell_ranges.specs.Spots.{is_same_spot};
ghost use Rattle.ep_evaluation.specs.Given.{cells_of};
ghost use Rattle.ep_cell_ranges.specs.Sound.{AreNew};
ghost use Rattle.ep_transfers.specs.Copies as spec;
ghost use Rattle.ep_transfer_pieces.specs.Pieces.{side_of};

use crate::spots::{Spot, is_same_spot};
use ep_bitslice::Side;
use ep_cell_ranges::{move_laws, replace_laws, taken_laws};
use ep_cells::{ByteRange, Cell};
use ep_domain::Num;
use ep_int::Memory;
use ep_state_ranges::{moved_to, replace, taken, taken_by_both};
use ep_states::State;
use ep_transfer_pieces::On;

fn place_at(side: Side, spot: Spot, bytes: u32) -> ByteRange
    ensures { result ≡ place_at side spot bytes }
{
    ByteRange {
        side,
        block: spot.0,
        offset: spot.1,
        bytes,
    }
}

// Cells of one place stand in place of what was in another.
fn put_there<N: Num>(
    side: Side,
    to: Spot,
    from: Spot,
    bytes: u32,
    cells: Vec<Cell<N>>,
    state: State<N>,
) -> Result<State<N>, Memory>
    requires room { to.1 + bytes ≤ 2 ^ 32 }
    requires new { AreNew state.model (place_at side from bytes) state.cells cells.items }
    ensures value { IfOk result (λ s. s ≡ replaced N.ops (place_at side to bytes)
        (map (moved_to from to) cells.items) state) }
    ensures model { IfOk result (λ s. s.model ≡ state.model) }
{
    move_laws::<N>();
    replace_laws::<N>();
    let held = Vec::new(state.allocator());
    let moved = moved_to(from, to, cells)?;
    let after = replace(state, place_at(side, to, bytes), moved, held)?;
    Ok(after.0)
}

// An aggregate that is assigned to itself stays.
fn stays(aggregate: bool, to: Spot, from: Spot) -> bool
    ensures { result ≡ (aggregate && is_same_spot to from) }
{
    aggregate && is_same_spot(to, from)
}

fn taken_alone<N: Num>(
    on: On,
    from: Spot,
    bytes: u32,
    state: &State<N>,
) -> Result<Vec<Cell<N>>, Memory>
    ensures { IfOk result (λ v. v.items ≡ taken N.ops state.now (place_at (cells_of (side_of on)) from bytes)) }
{
    taken(state, &place_at(on.cells(), from, bytes))
}

/// The cells that a side has in one place go to another.
pub(crate) fn moved_alone<N: Num>(
    on: On,
    aggregate: bool,
    to: Spot,
    from: Spot,
    bytes: u32,
    state: State<N>,
) -> Result<State<N>, Memory>
    requires { to.1 + bytes ≤ 2 ^ 32 }
    ensures value { IfOk result (λ s. s ≡ spec.moved_alone N.ops (side_of on) aggregate to from bytes state) }
    ensures model { IfOk result (λ s. s.model ≡ state.model) }
{
    if stays(aggregate, to, from) {
        return Ok(state);
    }
    taken_laws::<N>();
    state.model();
    let side = on.cells();
    let taken = taken_alone(on, from, bytes, &state)?;
    put_there(side, to, from, bytes, taken, state)
}

/// Those of both sides, where a Shared cell stays one.
pub(crate) fn moved_both<N: Num>(
    aggregate: bool,
    to: Spot,
    from: Spot,
    bytes: u32,
    state: State<N>,
) -> Result<State<N>, Memory>
    requires { to.1 + bytes ≤ 2 ^ 32 }
    ensures { IfOk result (λ s. s ≡ spec.moved_both N.ops aggregate to from bytes state) }
{
    if stays(aggregate, to, from) {
        return Ok(state);
    }
    taken_laws::<N>();
    state.model();
    let taken = taken_by_both(&state, from.0, from.1, bytes)?;
    put_there(Side::Shared, to, from, bytes, taken, state)
}
