//! Writes that wait at several places, so that those of cells next to each other are one at each of them.

ghost use Rattle.std.specs.Prelude.{◌≡◌, ◌+◌, ◌∷◌, [], ℕ, IfOk, IfSome, true};
ghost use Rattle.ep_int.specs.Types.{size_of};
ghost use Rattle.ep_state_rows.specs.Rows.{AreSpaced};
ghost use Rattle.ep_transfer_places.specs.Room.{BothHaveRoom, view};
ghost use Rattle.ep_transfer_pieces.specs.Puts.{after_put, after_puts, FitsPut, FitPuts};
ghost use Rattle.ep_transfer_pieces.specs.Several.{AreSeveral, StandsAt, reached, IsReady, Goes, Follows, are_many};
ghost use Rattle.ep_transfer_pieces.specs.Several.{is_together};

use crate::puts::Put;
use crate::rows::put_at;
use ep_bitslice::Side;
use ep_cell_rows::rows::push;
use ep_cells::Cell;
use ep_domain::Num;
use ep_equalities::Mode;
use ep_int::Memory;
use ep_state_ranges::all_spots;
use ep_state_rows::{are_spaced, weaken_rows};
use ep_states::State;
use ep_transfer_places::Places;
use ep_transfer_writes::item_cell;
use std::alloc::Global;

type Spot = (u32, u32);

// ---- the places

fn are_many(spots: &[Spot]) -> bool
    ensures { result ≡ are_many spots.now }
{
    match spots {
        [] => false,
        [_] => false,
        [_, _, ..] => true,
    }
}

/// The places of both sides, where there are several on the left, and each has so many bytes to the next one.
pub(crate) fn places_apart(
    alloc: Global,
    joint: bool,
    to: &Places,
    bytes: u32,
) -> Result<Option<Vec<Spot>>, Memory>
    requires { BothHaveRoom bytes (view to.now) }
    ensures { IfOk result (λ o. IfSome o (λ v. AreSeveral joint (view to.now) bytes v.items)) }
{
    if !joint {
        return Ok(None);
    }
    if !are_many(&to.left) {
        return Ok(None);
    }
    let all = all_spots(alloc, &to.left, &to.right)?;
    if !are_spaced(bytes, &all) {
        return Ok(None);
    }
    Ok(Some(all))
}

// ---- what waits

/// What is known, and Shared cells, each behind the one before it and so far behind the places as its offset says, that
/// are still to be written at each of these.
#[derive(Drop)]
pub(crate) struct Weakly<N> {
    pub state: State<N>,
    pub start: u32,
    pub bytes: u32,
    pub cells: Vec<Cell<N>>,
}

fn settled<N: Num>(state: State<N>, spots: &[Spot]) -> Weakly<N>
    ensures value { reached N.ops spots.now result ≡ state }
    ensures ready { (n : ℕ) → IsReady n spots.now result }
    ensures model { result.state.model ≡ state.model }
{
    let cells = Vec::new(state.allocator());
    Weakly {
        state,
        start: 0,
        bytes: 0,
        cells,
    }
}

fn written<N: Num>(now: Weakly<N>, room: u32, spots: &[Spot]) -> Result<State<N>, Memory>
    requires ready { IsReady room spots.now now }
    requires spaced { AreSpaced room spots.now }
    ensures value { IfOk result (λ s. s ≡ reached N.ops spots.now now) }
    ensures model { IfOk result (λ s. s.model ≡ now.state.model) }
{
    weaken_rows(now.state, now.start, now.bytes, &now.cells, spots)
}

// ---- a cell more

fn goes_on<N: Num>(now: &Weakly<N>, offset: u32) -> bool
    ensures { result ≡ true → now.now.start + now.now.bytes ≡ offset }
{
    u64::from(now.start) + u64::from(now.bytes) == u64::from(offset)
}

fn with_cell<N: Num>(
    now: Weakly<N>,
    room: u32,
    spots: &[Spot],
    cell: Cell<N>,
    bytes: u32,
) -> Result<Weakly<N>, Memory>
    requires ready { IsReady room spots.now now }
    requires stands { StandsAt now.state.model room spots.now (now.start + now.bytes) cell }
    requires bytes { bytes ≡ now.bytes + size_of now.state.model cell.what }
    ensures { IfOk result (λ r. Goes N.ops room spots.now cell now r) }
{
    let mut cells = now.cells;
    push(&mut cells, cell)?;
    Ok(Weakly {
        state: now.state,
        start: now.start,
        bytes,
        cells,
    })
}

fn one<N: Num>(cell: Cell<N>, state: &State<N>) -> Result<Vec<Cell<N>>, Memory>
    ensures { IfOk result (λ v. v.items ≡ cell ∷ []) }
{
    let mut out = Vec::new(state.allocator());
    push(&mut out, cell)?;
    Ok(out)
}

// After all that waited.
fn with_first<N: Num>(
    now: Weakly<N>,
    room: u32,
    spots: &[Spot],
    cell: Cell<N>,
    offset: u32,
    bytes: u32,
) -> Result<Weakly<N>, Memory>
    requires ready { IsReady room spots.now now }
    requires spaced { AreSpaced room spots.now }
    requires stands { StandsAt now.state.model room spots.now offset cell }
    requires bytes { bytes ≡ size_of now.state.model cell.what }
    ensures { IfOk result (λ r. Goes N.ops room spots.now cell now r) }
{
    let state = written(now, room, spots)?;
    let cells = one(cell, &state)?;
    Ok(Weakly {
        state,
        start: offset,
        bytes,
        cells,
    })
}

fn with_next<N: Num>(
    now: Weakly<N>,
    room: u32,
    spots: &[Spot],
    cell: Cell<N>,
    offset: u32,
    size: u32,
) -> Result<Weakly<N>, Memory>
    requires ready { IsReady room spots.now now }
    requires spaced { AreSpaced room spots.now }
    requires stands { StandsAt now.state.model room spots.now offset cell }
    requires size { size ≡ size_of now.state.model cell.what }
    ensures { IfOk result (λ r. Goes N.ops room spots.now cell now r) }
{
    if !goes_on(&now, offset) {
        return with_first(now, room, spots, cell, offset, size);
    }
    let bytes = now.bytes + size;
    with_cell(now, room, spots, cell, bytes)
}

// ---- a write more

fn is_together<N: Num>(put: &Put<N>) -> bool
    ensures { result ≡ is_together put.now }
{
    match put.mode {
        Mode::Both => put.item.same,
        Mode::Left => false,
        Mode::Right => false,
    }
}

// Of both sides, of the same value.
fn with_put<N: Num>(
    now: Weakly<N>,
    joint: bool,
    to: &Places,
    room: u32,
    spots: &[Spot],
    put: &Put<N>,
) -> Result<Weakly<N>, Memory>
    requires ready { IsReady room spots.now now }
    requires several { AreSeveral joint (view to.now) room spots.now }
    requires together { is_together put.now ≡ true }
    requires fits { FitsPut now.state.model room put.now }
    ensures { IfOk result (λ r. Follows N.ops joint (view to.now) room spots.now put.now now r) }
{
    let offset = put.offset;
    let cell = item_cell(&now.state, Side::Shared, put.what, &put.item, (0, offset))?;
    let size = ep_int::size(now.state.model(), put.what);
    with_next(now, room, spots, cell, offset, size)
}

// Of one side, or not of the same value.
fn after_all<N: Num>(
    now: Weakly<N>,
    joint: bool,
    to: &Places,
    room: u32,
    spots: &[Spot],
    put: Put<N>,
) -> Result<Weakly<N>, Memory>
    requires ready { IsReady room spots.now now }
    requires several { AreSeveral joint (view to.now) room spots.now }
    requires room { BothHaveRoom room (view to.now) }
    requires fits { FitsPut now.state.model room put }
    ensures { IfOk result (λ r. Follows N.ops joint (view to.now) room spots.now put now r) }
{
    let before = written(now, room, spots)?;
    let after = put_at(joint, to, put, before)?;
    Ok(settled(after, spots))
}

fn put_next<N: Num>(
    now: Weakly<N>,
    joint: bool,
    to: &Places,
    room: u32,
    spots: &[Spot],
    put: Put<N>,
) -> Result<Weakly<N>, Memory>
    requires ready { IsReady room spots.now now }
    requires several { AreSeveral joint (view to.now) room spots.now }
    requires room { BothHaveRoom room (view to.now) }
    requires fits { FitsPut now.state.model room put }
    ensures { IfOk result (λ r. Follows N.ops joint (view to.now) room spots.now put now r) }
{
    if is_together(&put) {
        let next = with_put(now, joint, to, room, spots, &put)?;
        return Ok(next);
    }
    let next = after_all(now, joint, to, room, spots, put)?;
    Ok(next)
}

/// One write after the other, at several places.
pub(crate) fn put_at_each<N: Num>(
    puts: Vec<Put<N>>,
    joint: bool,
    to: &Places,
    room: u32,
    spots: &[Spot],
    state: State<N>,
) -> Result<State<N>, Memory>
    requires several { AreSeveral joint (view to.now) room spots.now }
    requires room { BothHaveRoom room (view to.now) }
    requires fits { FitPuts state.model room puts.items }
    ensures value { IfOk result (λ s. s ≡ after_puts N.ops joint (view to.now) puts.items state) }
    ensures model { IfOk result (λ s. s.model ≡ state.model) }
{
    let mut now = settled(state, spots);
    for p in puts {
        let next = put_next(now, joint, to, room, spots, p)?;
        now = next;
    }
    written(now, room, spots)
}
