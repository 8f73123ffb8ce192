//! Fills.

ghost use Rattle.std.specs.Prelude.{◌≡◌, ◌++◌, [], IfOk, OnOk};
ghost use Rattle.ep_core.specs.Runs.{left, right};
ghost use Rattle.ep_transfers.specs.Writes.{underway};
ghost use Rattle.ep_transfers.specs.Transfers as spec;
ghost use Rattle.ep_transfer_places.specs.Room.{BothHaveRoom, view as shown_places};
ghost use Rattle.ep_transfer_writes.specs.Waiting.{view, item_view, SideFits, ItemFits, Keeps};

use crate::stores::goes_on;
use ep_bitslice::Side;
use ep_domain::Num;
use ep_equalities::{Fault, Mode, PairValue, same};
use ep_int::{IntType, Memory, Scalar};
use ep_states::State;
use ep_transfer_places::Places;
use ep_transfer_places::faults::range_faults;
use ep_transfer_places::places::{are_one, is_one, run_places};
use ep_transfer_writes::{Item, Underway, blurred_side, write_run};

// One place takes the bytes in turn. At several they may have been written in some way.
fn fill_left<N: Num>(bytes: u32, places: &Places, u: Underway<N>) -> Result<Underway<N>, Memory>
    requires item { ItemFits u.state (Scalar.Int IntType.U8) (item_view u.item) }
    requires room { BothHaveRoom bytes (shown_places places.now) }
    ensures value { IfOk result (λ r. view r
        ≡ spec.fill_side N.ops [] Mode.Both bytes left (shown_places places.now) (view u)) }
    ensures keeps { IfOk result (λ r. Keeps (view u) (view r)) }
{
    if is_one(&places.left) {
        return write_run(Mode::Left, false, places, bytes, u);
    }
    blurred_side(Side::Left, bytes, &places.left, u)
}

fn fill_right<N: Num>(bytes: u32, places: &Places, u: Underway<N>) -> Result<Underway<N>, Memory>
    requires item { ItemFits u.state (Scalar.Int IntType.U8) (item_view u.item) }
    requires room { BothHaveRoom bytes (shown_places places.now) }
    ensures value { IfOk result (λ r. view r
        ≡ spec.fill_side N.ops [] Mode.Both bytes right (shown_places places.now) (view u)) }
    ensures keeps { IfOk result (λ r. Keeps (view u) (view r)) }
{
    if is_one(&places.right) {
        return write_run(Mode::Right, false, places, bytes, u);
    }
    blurred_side(Side::Right, bytes, &places.right, u)
}

fn fill_both<N: Num>(bytes: u32, places: &Places, u: Underway<N>) -> Result<Underway<N>, Memory>
    requires item { ItemFits u.state (Scalar.Int IntType.U8) (item_view u.item) }
    requires room { BothHaveRoom bytes (shown_places places.now) }
    ensures { IfOk result (λ r. view r
        ≡ spec.fill_sides N.ops [] Mode.Both bytes Mode.Both (shown_places places.now) (view u)) }
{
    let left = fill_left(bytes, places, u)?;
    let right = fill_right(bytes, places, left)?;
    Ok(right)
}

fn fill_sides<N: Num>(
    mode: Mode,
    bytes: u32,
    places: &Places,
    u: Underway<N>,
) -> Result<Underway<N>, Memory>
    requires item { ItemFits u.state (Scalar.Int IntType.U8) (item_view u.item) }
    requires room { BothHaveRoom bytes (shown_places places.now) }
    ensures { IfOk result (λ r. view r
        ≡ spec.fill_sides N.ops [] mode bytes mode (shown_places places.now) (view u)) }
{
    match mode {
        Mode::Both => fill_both(bytes, places, u),
        Mode::Left => fill_left(bytes, places, u),
        Mode::Right => fill_right(bytes, places, u),
    }
}

fn fill_places<N: Num>(
    mode: Mode,
    same_to: bool,
    bytes: u32,
    places: &Places,
    u: Underway<N>,
) -> Result<Underway<N>, Memory>
    requires item { ItemFits u.state (Scalar.Int IntType.U8) (item_view u.item) }
    requires room { BothHaveRoom bytes (shown_places places.now) }
    ensures { IfOk result (λ r. view r
        ≡ spec.fill_places N.ops [] mode bytes same_to (shown_places places.now) (view u)) }
{
    if are_one(mode, places) {
        return write_run(mode, same_to, places, bytes, u);
    }
    fill_sides(mode, bytes, places, u)
}

/// Bytes of one value go to the places of an address. None is left where a running side has no place or no value. The
/// faults are added to those that are there.
pub fn filled_with<N: Num>(
    mode: Mode,
    sizes: &[u32],
    bytes: u32,
    to: &PairValue<N>,
    v: PairValue<N>,
    state: State<N>,
    faults: &mut Vec<Fault>,
) -> Result<Option<State<N>>, Memory>
    requires left { SideFits state (Scalar.Int IntType.U8) v.left }
    requires right { SideFits state (Scalar.Int IntType.U8) v.right }
    ensures next { IfOk result (λ r. r ≡ (spec.filled_with N.ops sizes.now mode bytes to.now v state).next) }
    ensures faults { OnOk result (faults.new.items
        ≡ faults.old.items ++ (spec.filled_with N.ops sizes.now mode bytes to.now v state).faults) }
{
    range_faults(mode, sizes, bytes, to, faults)?;
    let places = run_places(state.allocator(), sizes, bytes, to)?;
    if !goes_on(mode, &places, &v) {
        return Ok(None);
    }
    let item = Item::of(v);
    let after = fill_places(mode, same(to), bytes, &places, Underway { state, item })?;
    Ok(Some(after.state))
}
