//! Cells that lie next to each other, each looked at once for places that rise.

ghost use Rattle.std.specs.Prelude.{map, IfOk};
ghost use Rattle.ep_eval_loads.specs.Near.{AreOf};

use ep_bitslice::Side;
use ep_cell_rows::places::is_same_side;
use ep_cells::{ByteRange, Cell};
use ep_domain::Num;
use ep_int::{Memory, Model};
use ep_states::State;

/// The cells about a place, and the one to look at next.
#[derive(Drop)]
pub(crate) struct Near<'a, N> {
    place: ByteRange,
    pub cells: Vec<&'a Cell<N>>,
    pub at: usize,
}

/// No cells.
pub(crate) fn nowhere<'a, N: Num>(state: &'a State<N>, side: Side) -> Near<'a, N>
    ensures { AreOf (map (λ r. r.now) result.cells.items) state.now.cells }
{
    Near {
        place: ByteRange {
            side,
            block: 0,
            offset: 0,
            bytes: 0,
        },
        cells: Vec::new(state.allocator()),
        at: 0,
    }
}

fn is_within(place: &ByteRange, spot: (u32, u32)) -> bool {
    place.block == spot.0 && spot.1.saturating_sub(place.offset) < place.bytes
}

// The greatest offset of the places from an index on that are in one block with the first of them.
fn last_of_block(spots: &[(u32, u32)], from: usize, spot: (u32, u32)) -> u32 {
    let mut last = spot.1;
    for i in from..spots.len() {
        if spots[i].0 != spot.0 {
            return last;
        }
        last = last.max(spots[i].1);
    }
    last
}

fn is_ahead<N: Num>(model: Model, side: Side, spot: (u32, u32), x: &Cell<N>) -> bool {
    if !is_same_side(x.side, side) && !is_same_side(x.side, Side::Shared) {
        return false;
    }
    if x.block != spot.0 {
        return x.block > spot.0;
    }
    u64::from(x.offset) + u64::from(ep_int::size(model, x.what)) > u64::from(spot.1)
}

// The first cell of the side from an index on that doesn't lie before a place.
fn first_ahead<N: Num>(
    model: Model,
    side: Side,
    spot: (u32, u32),
    cells: &[&Cell<N>],
    from: usize,
) -> usize {
    for i in from..cells.len() {
        if is_ahead(model, side, spot, cells[i]) {
            return i;
        }
    }
    cells.len()
}

fn about_run<'a, N: Num>(
    state: &'a State<N>,
    side: Side,
    spots: &[(u32, u32)],
    from: usize,
    spot: (u32, u32),
) -> Result<Near<'a, N>, Memory>
    ensures { IfOk result (λ r. AreOf (map (λ c. c.now) r.cells.items) state.now.cells) }
{
    let last = last_of_block(spots, from, spot);
    let place = ByteRange {
        side,
        block: spot.0,
        offset: spot.1,
        bytes: last.saturating_sub(spot.1).saturating_add(1),
    };
    let cells = state.about(&place)?;
    Ok(Near {
        place,
        cells,
        at: 0,
    })
}

/// The cells to look at for the place at an index, by those for the places before it: others for another block, or
/// where places fall.
pub(crate) fn near_at<'a, N: Num>(
    near: Near<'a, N>,
    state: &'a State<N>,
    side: Side,
    spots: &[(u32, u32)],
    from: usize,
    spot: (u32, u32),
) -> Result<Near<'a, N>, Memory>
    requires { AreOf (map (λ c. c.now) near.cells.items) state.now.cells }
    ensures { IfOk result (λ r. AreOf (map (λ c. c.now) r.cells.items) state.now.cells) }
{
    if is_within(&near.place, spot) {
        let at = first_ahead(state.model(), side, spot, &near.cells, near.at);
        return Ok(Near {
            place: near.place,
            cells: near.cells,
            at,
        });
    }
    about_run(state, side, spots, from, spot)
}
