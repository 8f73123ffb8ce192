//! Writes that wait, so that those of cells next to each other are one.

ghost use Rattle.std.specs.Prelude.{◌≡◌, ◌+◌, ◌∷◌, [], ℕ, true, IfOk, IfSome};
ghost use Rattle.ep_int.specs.Types.{size_of};
ghost use Rattle.ep_cells.specs.States.{Each};
ghost use Rattle.ep_transfer_places.specs.Room.{BothHaveRoom, view};
ghost use Rattle.ep_transfer_pieces.specs.Puts.{after_put, FitsPut};
ghost use Rattle.ep_transfer_pieces.specs.Rows.{StandsAt, CanGo, each_written, reached, IsReady, Goes, Follows};
ghost use Rattle.ep_transfer_pieces.specs.Rows.{goes_on};
ghost use Rattle.ep_transfer_writes.specs.Running.{RunsAt};
ghost use Rattle.ep_transfer_writes.specs.Waiting.{item_view};

use crate::puts::Put;
use ep_bitslice::Side;
use ep_cell_ranges::{more_split_laws, replace_laws};
use ep_cell_rows::places::{is_same_side, place_of};
use ep_cell_rows::rows::push;
use ep_cells::{ByteRange, Cell};
use ep_domain::Num;
use ep_int::Memory;
use ep_reads::split_laws;
use ep_state_ranges::replace;
use ep_states::State;
use ep_transfer_places::Places;
use ep_transfer_places::places::moved_places;
use ep_transfer_writes::{Underway, is_whole, item_cell, run_at, write};

/// What is known, and cells of one side, each behind the one before it, that are still to be written.
#[derive(Drop)]
pub(crate) struct Pending<N> {
    pub state: State<N>,
    pub side: Side,
    pub block: u32,
    pub start: u32,
    pub bytes: u32,
    pub cells: Vec<Cell<N>>,
}

/// Nothing is to be written.
pub(crate) fn settled<N: Num>(state: State<N>) -> Pending<N>
    ensures value { reached N.ops result ≡ state }
    ensures ready { IsReady result }
    ensures model { result.state.model ≡ state.model }
{
    let cells = Vec::new(state.allocator());
    Pending {
        state,
        side: Side::Left,
        block: 0,
        start: 0,
        bytes: 0,
        cells,
    }
}

fn one<N: Num>(cell: Cell<N>, state: &State<N>) -> Result<Vec<Cell<N>>, Memory>
    ensures { IfOk result (λ v. v.items ≡ cell ∷ []) }
{
    let mut out = Vec::new(state.allocator());
    push(&mut out, cell)?;
    Ok(out)
}

fn write_one<N: Num>(cell: Cell<N>, state: State<N>) -> Result<State<N>, Memory>
    requires { CanGo state.model cell }
    ensures value { IfOk result (λ s. s ≡ each_written N.ops state.model (cell ∷ []) state) }
    ensures model { IfOk result (λ s. s.model ≡ state.model) }
{
    replace_laws::<N>();
    let place = place_of(state.model(), &cell);
    let new = one(cell, &state)?;
    let held = Vec::new(state.allocator());
    let after = replace(state, place, new, held)?;
    Ok(after.0)
}

fn write_each<N: Num>(cells: Vec<Cell<N>>, state: State<N>) -> Result<State<N>, Memory>
    requires { Each (CanGo state.model) cells.items }
    ensures value { IfOk result (λ s. s ≡ each_written N.ops state.model cells.items state) }
    ensures model { IfOk result (λ s. s.model ≡ state.model) }
{
    let mut after = state;
    for c in cells {
        let next = write_one(c, after)?;
        after = next;
    }
    Ok(after)
}

/// All is written, at once where no cell lies partly there.
pub(crate) fn written<N: Num>(now: Pending<N>) -> Result<State<N>, Memory>
    requires { IsReady now }
    ensures value { IfOk result (λ s. s ≡ reached N.ops now) }
    ensures model { IfOk result (λ s. s.model ≡ now.state.model) }
{
    split_laws::<N>();
    more_split_laws::<N>();
    replace_laws::<N>();
    now.state.model();
    if is_whole(&now.state, now.side, (now.block, now.start), now.bytes) {
        let place = ByteRange {
            side: now.side,
            block: now.block,
            offset: now.start,
            bytes: now.bytes,
        };
        let held = Vec::new(now.state.allocator());
        let after = replace(now.state, place, now.cells, held)?;
        return Ok(after.0);
    }
    write_each(now.cells, now.state)
}

// Whether a cell begins where the last one ends.
fn goes_on<N: Num>(now: &Pending<N>, side: Side, spot: (u32, u32)) -> bool
    ensures { result ≡ goes_on now.now side spot }
{
    is_same_side(now.side, side)
        && (now.block == spot.0 && u64::from(now.start) + u64::from(now.bytes) == u64::from(spot.1))
}

// How many bytes there are with a cell more, if it does.
fn bytes_with<N: Num>(now: &Pending<N>, side: Side, spot: (u32, u32), size: u32) -> Option<u32>
    ensures there { IfSome result (λ _. goes_on now.now side spot ≡ true) }
    ensures bytes { IfSome result (λ n. n ≡ now.now.bytes + size) }
{
    if !goes_on(now, side, spot) {
        return None;
    }
    match now.bytes.checked_add(size) {
        None => None,
        Some(n) => Some(n),
    }
}

fn with_cell<N: Num>(now: Pending<N>, cell: Cell<N>, bytes: u32) -> Result<Pending<N>, Memory>
    requires ready { IsReady now }
    requires stands { StandsAt now.state.model now.side now.block (now.start + now.bytes) cell }
    requires bytes { bytes ≡ now.bytes + size_of now.state.model cell.what }
    ensures { IfOk result (λ r. Goes N.ops cell now r) }
{
    let mut cells = now.cells;
    push(&mut cells, cell)?;
    Ok(Pending {
        state: now.state,
        side: now.side,
        block: now.block,
        start: now.start,
        bytes,
        cells,
    })
}

// After all that waited.
fn with_first<N: Num>(now: Pending<N>, cell: Cell<N>, bytes: u32) -> Result<Pending<N>, Memory>
    requires ready { IsReady now }
    requires cell { CanGo now.state.model cell }
    requires bytes { bytes ≡ size_of now.state.model cell.what }
    ensures { IfOk result (λ r. Goes N.ops cell now r) }
{
    let state = written(now)?;
    let side = cell.side;
    let block = cell.block;
    let start = cell.offset;
    let cells = one(cell, &state)?;
    Ok(Pending {
        state,
        side,
        block,
        start,
        bytes,
        cells,
    })
}

fn with_next<N: Num>(
    now: Pending<N>,
    cell: Cell<N>,
    side: Side,
    spot: (u32, u32),
    size: u32,
) -> Result<Pending<N>, Memory>
    requires ready { IsReady now }
    requires stands { StandsAt now.state.model side spot.0 spot.1 cell }
    requires size { size ≡ size_of now.state.model cell.what }
    ensures { IfOk result (λ r. Goes N.ops cell now r) }
{
    match bytes_with(&now, side, spot, size) {
        None => with_first(now, cell, size),
        Some(bytes) => with_cell(now, cell, bytes),
    }
}

/// A write at its places.
pub(crate) fn put_at<N: Num>(
    joint: bool,
    to: &Places,
    put: Put<N>,
    state: State<N>,
) -> Result<State<N>, Memory>
    requires fits { (n : ℕ) × (FitsPut state.model n put × BothHaveRoom n (view to.now)) }
    ensures value { IfOk result (λ s. s ≡ after_put N.ops joint (view to.now) put state) }
    ensures model { IfOk result (λ s. s.model ≡ state.model) }
{
    let moved = moved_places(state.allocator(), put.offset, to)?;
    let item = put.item;
    let after = write(put.mode, joint, put.what, &moved, Underway { state, item })?;
    Ok(after.state)
}

// What goes to one place.
fn with_put<N: Num>(
    now: Pending<N>,
    joint: bool,
    to: &Places,
    at: (Side, (u32, u32)),
    put: &Put<N>,
) -> Result<Pending<N>, Memory>
    requires ready { IsReady now }
    requires runs { RunsAt put.now.mode joint (view to.now) (item_view put.now.item) at }
    requires fits { (n : ℕ) × (FitsPut now.state.model n put.now × BothHaveRoom n (view to.now)) }
    ensures { IfOk result (λ r. Follows N.ops joint (view to.now) put.now now r) }
{
    replace_laws::<N>();
    let offset = at.1.1 + put.offset;
    let spot = (at.1.0, offset);
    let cell = item_cell(&now.state, at.0, put.what, &put.item, spot)?;
    let size = ep_int::size(now.state.model(), put.what);
    with_next(now, cell, at.0, spot, size)
}

// What goes to several places, or not to the same on both sides.
fn after_all<N: Num>(
    now: Pending<N>,
    joint: bool,
    to: &Places,
    put: Put<N>,
) -> Result<Pending<N>, Memory>
    requires ready { IsReady now }
    requires fits { (n : ℕ) × (FitsPut now.state.model n put × BothHaveRoom n (view to.now)) }
    ensures { IfOk result (λ r. Follows N.ops joint (view to.now) put now r) }
{
    let before = written(now)?;
    let after = put_at(joint, to, put, before)?;
    Ok(settled(after))
}

/// A write more, after all others: it waits, where it goes to one place.
pub(crate) fn put_next<N: Num>(
    now: Pending<N>,
    joint: bool,
    to: &Places,
    put: Put<N>,
) -> Result<Pending<N>, Memory>
    requires ready { IsReady now }
    requires fits { (n : ℕ) × (FitsPut now.state.model n put × BothHaveRoom n (view to.now)) }
    ensures { IfOk result (λ r. Follows N.ops joint (view to.now) put now r) }
{
    match run_at(put.mode, joint, to, &put.item) {
        None => after_all(now, joint, to, put),
        Some(at) => with_put(now, joint, to, at, &put),
    }
}
