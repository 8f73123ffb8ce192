//! A type's bytes are cleared at the places of an address.

ghost use Rattle.std.specs.Prelude.{◌≡◌, ◌<◌, ◌≤◌, ◌^◌, ◌+◌, ◌++◌, [], IfOk, OnOk, IfSome};
ghost use Rattle.ep_int.specs.Types.{size_of};
ghost use Rattle.ep_cells.specs.Kill.{AreLeavesIn};
ghost use Rattle.ep_cell_ranges.specs.Moves.{blurred_each, place_at};
ghost use Rattle.ep_cell_ranges.specs.Ranges.{replaced};
ghost use Rattle.ep_transfers.specs.Places.{moved_places};
ghost use Rattle.ep_transfers.specs.Transfers as spec;
ghost use Rattle.ep_transfers.specs.Writes as writes;
ghost use Rattle.ep_transfer_places.specs.Room.{BothHaveRoom, view as shown_places};
ghost use Rattle.ep_transfer_writes.specs.Running.{RunsAt};
ghost use Rattle.ep_transfer_writes.specs.Waiting.{item_view, ItemFits};
ghost use Rattle.ep_transfer_clears.specs.OnePlace.{cells_from};

use crate::cells::cleared_cells;
use crate::items::{undefined_item, zero_item};
use crate::walks::{Walk, first_at, moved_on};
use ep_bitslice::{BoxedForm, Side};
use ep_cell_ranges::{more_split_laws, replace_laws};
use ep_cells::ByteRange;
use ep_domain::Num;
use ep_equalities::{Fault, Mode, PairValue, same};
use ep_int::{IntType, Memory, Scalar};
use ep_layout::Leaf;
use ep_reads::split_laws;
use ep_state_ranges::{blur_each, replace};
use ep_states::State;
use ep_transfer_places::Places;
use ep_transfer_places::faults::range_faults;
use ep_transfer_places::places::{has_places, moved_places, run_places};
use ep_transfer_writes::{Item, Underway, is_whole, run_at, write};

// An item goes to the places so many bytes further on.
fn put<N: Num>(
    mode: Mode,
    same_to: bool,
    what: Scalar,
    places: &Places,
    at: u32,
    item: Item<N>,
    state: State<N>,
) -> Result<State<N>, Memory>
    requires item { ItemFits state what (item_view item) }
    requires room { BothHaveRoom (at + size_of state.model what) (shown_places places.now) }
    ensures value { IfOk result (λ r. r ≡ writes.write_now N.ops mode same_to what
        (moved_places at (shown_places places.now)) (item_view item) state) }
    ensures model { IfOk result (λ r. r.model ≡ state.model) }
{
    let moved = moved_places(state.allocator(), at, places)?;
    let after = write(mode, same_to, what, &moved, Underway { state, item })?;
    Ok(after.state)
}

// A leaf that begins here, or a byte outside of all leaves.
fn clear_here<N: Num>(
    mode: Mode,
    same_to: bool,
    places: &Places,
    at: u32,
    first: Option<Scalar>,
    inside: bool,
    state: State<N>,
) -> Result<State<N>, Memory>
    requires leaf { IfSome first (λ w. BothHaveRoom (at + size_of state.model w) (shown_places places.now)) }
    requires byte { BothHaveRoom (at + 1) (shown_places places.now) }
    ensures value { IfOk result (λ r. r ≡ spec.cleared_here N.ops [] mode 0 [] same_to
        (shown_places places.now) at first inside state) }
    ensures model { IfOk result (λ r. r.model ≡ state.model) }
{
    match first {
        Some(what) => {
            let item = zero_item(state.allocator(), what);
            put(mode, same_to, what, places, at, item, state)
        }
        None => {
            if inside {
                return Ok(state);
            }
            let byte = Scalar::Int(IntType::U8);
            put(mode, same_to, byte, places, at, undefined_item(), state)
        }
    }
}

fn clear_each<N: Num>(
    mode: Mode,
    same_to: bool,
    places: &Places,
    bytes: u32,
    leaves: &[Leaf],
    state: State<N>,
) -> Result<State<N>, Memory>
    requires leaves { AreLeavesIn state.model 0 bytes leaves.now }
    requires room { BothHaveRoom bytes (shown_places places.now) }
    ensures { IfOk result (λ r. r ≡ spec.cleared_from N.ops [] mode 0 leaves.now same_to
        (shown_places places.now) 0 bytes state) }
{
    let model = state.model();
    let mut after = state;
    let mut walk = Walk { begun: 0, end: 0 };
    for at in 0..bytes {
        let first = first_at(leaves, walk.begun, at);
        after = clear_here(mode, same_to, places, at, first, at < walk.end, after)?;
        walk = moved_on(model, bytes, leaves, at, first, walk);
    }
    Ok(after)
}

fn blurred<N: Num>(side: Side, spots: &[(u32, u32)], state: State<N>) -> Result<State<N>, Memory>
    ensures { IfOk result (λ r. r ≡ blurred_each N.ops side 0 spots.now state) }
{
    let held: Vec<Option<BoxedForm>> = Vec::new(state.allocator());
    let after = blur_each(state, side, 0, spots, held)?;
    Ok(after.0)
}

// No bytes may still lie inside of a pointer.
fn none_written<N: Num>(mode: Mode, places: &Places, state: State<N>) -> Result<State<N>, Memory>
    ensures { IfOk result (λ r. r ≡ spec.none_written N.ops mode (shown_places places.now) state) }
{
    match mode {
        Mode::Both => {
            let left = blurred(Side::Left, &places.left, state)?;
            blurred(Side::Right, &places.right, left)
        }
        Mode::Left => blurred(Side::Left, &places.left, state),
        Mode::Right => blurred(Side::Right, &places.right, state),
    }
}

// All at once.
fn clear_range<N: Num>(
    at: (Side, (u32, u32)),
    bytes: u32,
    leaves: &[Leaf],
    state: State<N>,
) -> Result<State<N>, Memory>
    requires leaves { AreLeavesIn state.model 0 bytes leaves.now }
    requires room { at.1.1 + bytes ≤ 2 ^ 32 }
    ensures { IfOk result (λ r. r ≡ replaced N.ops (place_at at.0 at.1 bytes)
        (cells_from N.ops state.model at.0 at.1 leaves.now 0 bytes) state) }
{
    let new = cleared_cells(&state, at, bytes, leaves)?;
    let place = ByteRange {
        side: at.0,
        block: at.1.0,
        offset: at.1.1,
        bytes,
    };
    let held: Vec<Option<BoxedForm>> = Vec::new(state.allocator());
    let after = replace(state, place, new, held)?;
    Ok(after.0)
}

// At once, where no cell lies partly there.
fn clear_at_one<N: Num>(
    at: (Side, (u32, u32)),
    mode: Mode,
    same_to: bool,
    places: &Places,
    bytes: u32,
    leaves: &[Leaf],
    state: State<N>,
) -> Result<State<N>, Memory>
    requires leaves { AreLeavesIn state.model 0 bytes leaves.now }
    requires room { BothHaveRoom bytes (shown_places places.now) }
    requires runs { RunsAt mode same_to (shown_places places.now) (spec.undefined_item N.ops) at }
    ensures { IfOk result (λ r. r ≡ spec.cleared_from N.ops [] mode 0 leaves.now same_to
        (shown_places places.now) 0 bytes state) }
{
    split_laws::<N>();
    more_split_laws::<N>();
    replace_laws::<N>();
    state.model();
    if is_whole(&state, at.0, at.1, bytes) {
        return clear_range(at, bytes, leaves, state);
    }
    clear_each(mode, same_to, places, bytes, leaves, state)
}

fn clear_some<N: Num>(
    mode: Mode,
    same_to: bool,
    places: &Places,
    bytes: u32,
    leaves: &[Leaf],
    state: State<N>,
) -> Result<State<N>, Memory>
    requires leaves { AreLeavesIn state.model 0 bytes leaves.now }
    requires room { BothHaveRoom bytes (shown_places places.now) }
    ensures { IfOk result (λ r. r ≡ spec.cleared_from N.ops [] mode 0 leaves.now same_to
        (shown_places places.now) 0 bytes state) }
{
    let item = undefined_item::<N>();
    match run_at(mode, same_to, places, &item) {
        None => clear_each(mode, same_to, places, bytes, leaves, state),
        Some(at) => clear_at_one(at, mode, same_to, places, bytes, leaves, state),
    }
}

fn clear_bytes<N: Num>(
    mode: Mode,
    same_to: bool,
    places: &Places,
    bytes: u32,
    leaves: &[Leaf],
    state: State<N>,
) -> Result<State<N>, Memory>
    requires leaves { AreLeavesIn state.model 0 bytes leaves.now }
    requires room { BothHaveRoom bytes (shown_places places.now) }
    ensures { IfOk result (λ r. r ≡ spec.cleared_bytes N.ops [] mode bytes leaves.now same_to
        (shown_places places.now) bytes state) }
{
    if bytes == 0 {
        return none_written(mode, places, state);
    }
    clear_some(mode, same_to, places, bytes, leaves, state)
}

/// 0 or null goes to each leaf of a type of so many bytes at the places of an address, and every other byte there is
/// undefined. None is left where a running side has no place. The faults are added to those that are there. At one
/// place, on one side or on both together, where no cell lies partly in the bytes, it is one change of the cells there;
/// else each leaf and each other byte costs a write.
pub fn cleared<N: Num>(
    mode: Mode,
    sizes: &[u32],
    bytes: u32,
    leaves: &[Leaf],
    to: &PairValue<N>,
    state: State<N>,
    faults: &mut Vec<Fault>,
) -> Result<Option<State<N>>, Memory>
    requires { AreLeavesIn state.model 0 bytes leaves.now }
    ensures next { IfOk result (λ r. r
        ≡ (spec.cleared N.ops sizes.now mode bytes leaves.now to.now state).next) }
    ensures faults { OnOk result (faults.new.items
        ≡ faults.old.items ++ (spec.cleared N.ops sizes.now mode bytes leaves.now to.now state).faults) }
{
    range_faults(mode, sizes, bytes, to, faults)?;
    let places = run_places(state.allocator(), sizes, bytes, to)?;
    if !has_places(mode, &places) {
        return Ok(None);
    }
    let after = clear_bytes(mode, same(to), &places, bytes, leaves, state)?;
    Ok(Some(after))
}
