//! The same thing at each of so many bytes, and bytes that may have been written in some way.

ghost use Rattle.std.specs.Prelude.{◌≡◌, ◌<◌, ◌+◌, IfOk};
ghost use Rattle.ep_transfers.specs.Writes as spec;
ghost use Rattle.ep_transfers.specs.Places.{moved_places};
ghost use Rattle.ep_transfer_places.specs.Room.{BothHaveRoom, view as shown_places};
ghost use Rattle.ep_transfer_writes.specs.Waiting.{view, item_view, ItemFits, Keeps};
ghost use Rattle.ep_transfer_writes.specs.Running.{RunsAt};

use crate::changes::{forms, with_forms};
use crate::item::Underway;
use crate::ranges::{cut_at_end, is_whole, item_cell, run_at, write_range};
use crate::writes::write;
use ep_bitslice::Side;
use ep_cell_ranges::{blur_laws, more_split_laws, replace_laws};
use ep_domain::Num;
use ep_equalities::Mode;
use ep_int::{IntType, Memory, Scalar};
use ep_reads::split_laws;
use ep_state_ranges::blur_each;
use ep_transfer_places::Places;
use ep_transfer_places::places::moved_places;

fn write_byte<N: Num>(
    mode: Mode,
    same_to: bool,
    places: &Places,
    at: u32,
    u: Underway<N>,
) -> Result<Underway<N>, Memory>
    requires item { ItemFits u.state (Scalar.Int IntType.U8) (item_view u.item) }
    requires room { BothHaveRoom (at + 1) (shown_places places.now) }
    ensures value { IfOk result (λ r. view r ≡ spec.write N.ops mode same_to (Scalar.Int IntType.U8)
        (moved_places at (shown_places places.now)) (view u)) }
    ensures keeps { IfOk result (λ r. Keeps (view u) (view r)) }
{
    let moved = moved_places(u.state.allocator(), at, places)?;
    write(mode, same_to, Scalar::Int(IntType::U8), &moved, u)
}

// One write after the other.
fn write_in_turn<N: Num>(
    mode: Mode,
    same_to: bool,
    places: &Places,
    bytes: u32,
    u: Underway<N>,
) -> Result<Underway<N>, Memory>
    requires item { ItemFits u.state (Scalar.Int IntType.U8) (item_view u.item) }
    requires room { BothHaveRoom bytes (shown_places places.now) }
    ensures value { IfOk result (λ r. view r ≡ spec.write_run N.ops mode same_to (Scalar.Int IntType.U8)
        (shown_places places.now) 0 bytes (view u)) }
    ensures keeps { IfOk result (λ r. Keeps (view u) (view r)) }
{
    let mut after = u;
    for i in 0..bytes {
        after = write_byte(mode, same_to, places, i, after)?;
    }
    Ok(after)
}

fn write_at_one<N: Num>(
    at: (Side, (u32, u32)),
    mode: Mode,
    same_to: bool,
    places: &Places,
    bytes: u32,
    u: Underway<N>,
) -> Result<Underway<N>, Memory>
    requires item { ItemFits u.state (Scalar.Int IntType.U8) (item_view u.item) }
    requires room { BothHaveRoom bytes (shown_places places.now) }
    requires runs { RunsAt mode same_to (shown_places places.now) (item_view u.item) at }
    ensures value { IfOk result (λ r. view r ≡ spec.write_run N.ops mode same_to (Scalar.Int IntType.U8)
        (shown_places places.now) 0 bytes (view u)) }
    ensures keeps { IfOk result (λ r. Keeps (view u) (view r)) }
{
    split_laws::<N>();
    more_split_laws::<N>();
    replace_laws::<N>();
    u.state.model();
    if is_whole(&u.state, at.0, at.1, bytes) {
        let byte = Scalar::Int(IntType::U8);
        let c = item_cell(&u.state, at.0, byte, &u.item, at.1)?;
        return write_range(&c, bytes, u);
    }
    write_in_turn(mode, same_to, places, bytes, u)
}

// At once, where no cell lies partly there.
fn write_part<N: Num>(
    mode: Mode,
    same_to: bool,
    places: &Places,
    bytes: u32,
    u: Underway<N>,
) -> Result<Underway<N>, Memory>
    requires item { ItemFits u.state (Scalar.Int IntType.U8) (item_view u.item) }
    requires room { BothHaveRoom bytes (shown_places places.now) }
    ensures value { IfOk result (λ r. view r ≡ spec.write_run N.ops mode same_to (Scalar.Int IntType.U8)
        (shown_places places.now) 0 bytes (view u)) }
    ensures keeps { IfOk result (λ r. Keeps (view u) (view r)) }
{
    match run_at(mode, same_to, places, &u.item) {
        None => write_in_turn(mode, same_to, places, bytes, u),
        Some(at) => write_at_one(at, mode, same_to, places, bytes, u),
    }
}

// So many bytes, and then so many more.
fn write_two<N: Num>(
    mode: Mode,
    same_to: bool,
    places: &Places,
    bytes: (u32, u32),
    u: Underway<N>,
) -> Result<Underway<N>, Memory>
    requires item { ItemFits u.state (Scalar.Int IntType.U8) (item_view u.item) }
    requires room { BothHaveRoom (bytes.0 + bytes.1) (shown_places places.now) }
    requires more { 0 < bytes.1 }
    ensures value { IfOk result (λ r. view r ≡ spec.write_run N.ops mode same_to (Scalar.Int IntType.U8)
        (shown_places places.now) 0 (bytes.0 + bytes.1) (view u)) }
    ensures keeps { IfOk result (λ r. Keeps (view u) (view r)) }
{
    let before = write_part(mode, same_to, places, bytes.0, u)?;
    let moved = moved_places(before.state.allocator(), bytes.0, places)?;
    let after = write_part(mode, same_to, &moved, bytes.1, before)?;
    Ok(after)
}

// The end by itself, where a cell lies partly in the bytes there.
fn write_to_end<N: Num>(
    at: (Side, (u32, u32)),
    mode: Mode,
    same_to: bool,
    places: &Places,
    bytes: u32,
    u: Underway<N>,
) -> Result<Underway<N>, Memory>
    requires item { ItemFits u.state (Scalar.Int IntType.U8) (item_view u.item) }
    requires room { BothHaveRoom bytes (shown_places places.now) }
    ensures value { IfOk result (λ r. view r ≡ spec.write_run N.ops mode same_to (Scalar.Int IntType.U8)
        (shown_places places.now) 0 bytes (view u)) }
    ensures keeps { IfOk result (λ r. Keeps (view u) (view r)) }
{
    let last = cut_at_end(&u.state, at.0, at.1, bytes);
    if last == 0 {
        return write_part(mode, same_to, places, bytes, u);
    }
    write_two(mode, same_to, places, (bytes - last, last), u)
}

// The first byte by itself.
fn write_after_first<N: Num>(
    at: (Side, (u32, u32)),
    mode: Mode,
    same_to: bool,
    places: &Places,
    bytes: u32,
    u: Underway<N>,
) -> Result<Underway<N>, Memory>
    requires item { ItemFits u.state (Scalar.Int IntType.U8) (item_view u.item) }
    requires room { BothHaveRoom bytes (shown_places places.now) }
    requires more { 1 < bytes }
    ensures value { IfOk result (λ r. view r ≡ spec.write_run N.ops mode same_to (Scalar.Int IntType.U8)
        (shown_places places.now) 0 bytes (view u)) }
    ensures keeps { IfOk result (λ r. Keeps (view u) (view r)) }
{
    let before = write_part(mode, same_to, places, 1, u)?;
    let moved = moved_places(before.state.allocator(), 1, places)?;
    let next = (at.0, (at.1.0, at.1.1.saturating_add(1)));
    let after = write_to_end(next, mode, same_to, &moved, bytes - 1, before)?;
    Ok(after)
}

fn write_around<N: Num>(
    at: (Side, (u32, u32)),
    mode: Mode,
    same_to: bool,
    places: &Places,
    bytes: u32,
    u: Underway<N>,
) -> Result<Underway<N>, Memory>
    requires item { ItemFits u.state (Scalar.Int IntType.U8) (item_view u.item) }
    requires room { BothHaveRoom bytes (shown_places places.now) }
    ensures value { IfOk result (λ r. view r ≡ spec.write_run N.ops mode same_to (Scalar.Int IntType.U8)
        (shown_places places.now) 0 bytes (view u)) }
    ensures keeps { IfOk result (λ r. Keeps (view u) (view r)) }
{
    if bytes < 16 {
        return write_part(mode, same_to, places, bytes, u);
    }
    if is_whole(&u.state, at.0, at.1, bytes) {
        return write_part(mode, same_to, places, bytes, u);
    }
    write_after_first(at, mode, same_to, places, bytes, u)
}

/// What waits is written at each of so many bytes, in turn, from the places on. At one place, on one side or on both
/// together, all but the first and the last few bytes are one change of the cells there; else each byte costs a write.
pub fn write_run<N: Num>(
    mode: Mode,
    same_to: bool,
    places: &Places,
    bytes: u32,
    underway: Underway<N>,
) -> Result<Underway<N>, Memory>
    requires item { ItemFits underway.state (Scalar.Int IntType.U8) (item_view underway.item) }
    requires room { BothHaveRoom bytes (shown_places places.now) }
    ensures value { IfOk result (λ r. view r ≡ spec.write_run N.ops mode same_to (Scalar.Int IntType.U8)
        (shown_places places.now) 0 bytes (view underway)) }
    ensures keeps { IfOk result (λ r. Keeps (view underway) (view r)) }
{
    match run_at(mode, same_to, places, &underway.item) {
        None => write_in_turn(mode, same_to, places, bytes, underway),
        Some(at) => write_around(at, mode, same_to, places, bytes, underway),
    }
}

/// One side's bytes from each of several places on may have been written in some way.
pub fn blurred_side<N: Num>(
    side: Side,
    bytes: u32,
    spots: &[(u32, u32)],
    underway: Underway<N>,
) -> Result<Underway<N>, Memory>
    ensures value { IfOk result (λ r. view r
        ≡ spec.blurred_side N.ops side bytes spots.now (view underway)) }
    ensures keeps { IfOk result (λ r. Keeps (view underway) (view r)) }
{
    blur_laws::<N>();
    let held = forms(underway.state.allocator(), &underway.item.pair)?;
    let after = blur_each(underway.state, side, bytes, spots, held)?;
    let item = with_forms(underway.item, &after.1);
    Ok(Underway {
        state: after.0,
        item,
    })
}
