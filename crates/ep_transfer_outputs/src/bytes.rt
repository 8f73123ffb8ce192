//! Bytes that are put out.

ghost use Rattle.std.specs.Prelude.{◌≡◌, ◌++◌, ◌+◌, ◌<◌, ◌&&◌, [], IfOk, OnOk, zero};
ghost use Rattle.ep_int.specs.declared.types.IntType.TheVariants.{U8};
ghost use Rattle.ep_evaluation.specs.Accesses as accesses;
ghost use Rattle.ep_evaluation.specs.Given as given;
ghost use Rattle.ep_eval_sides.specs.Sides.{pick};
ghost use Rattle.ep_transfers.specs.Places as places_spec;
ghost use Rattle.ep_transfers.specs.Transfers as spec;
ghost use Rattle.ep_transfer_places.specs.Room.{HaveRoom, BothHaveRoom, view as shown_places};
ghost use Rattle.ep_transfer_outputs.specs.Bytes.{AreReads, next_faults, goes_on};

use crate::outputs::note_differing;
use ep_alarms::AlarmKind;
use ep_bitslice::Side;
use ep_domain::Num;
use ep_equalities::{Fault, Mode, PairValue, same};
use ep_eval_loads::loads::{SideReads, all_reads};
use ep_eval_sides::pairs::{note, pair_on, shown_if};
use ep_int::{IntType, Memory, Scalar};
use ep_states::State;
use ep_transfer_places::Places;
use ep_transfer_places::faults::range_faults;
use ep_transfer_places::places::{has_places, has_values, moved_spots, run_places};

// What a side reads of a byte.
fn byte_reads<N: Num>(
    state: &State<N>,
    side: Side,
    spots: &[(u32, u32)],
    byte: u32,
) -> Result<SideReads<N>, Memory>
    requires room { HaveRoom (byte + 1) spots.now }
    ensures { IfOk result (AreReads N.ops state.now side (places_spec.moved_spots byte spots.now)) }
{
    let spots = moved_spots(state.allocator(), byte, spots)?;
    let reads = all_reads(state, side, &spots, Scalar::Int(IntType::U8))?;
    Ok(reads)
}

fn all_shared(mode: Mode, left: bool, right: bool) -> bool
    ensures { result ≡ places_spec.on_all mode (pick left right) }
{
    match mode {
        Mode::Both => left && right,
        Mode::Left => left,
        Mode::Right => right,
    }
}

fn note_reads<N: Num>(
    mode: Mode,
    left: &SideReads<N>,
    right: &SideReads<N>,
    faults: &mut Vec<Fault>,
) -> Result<(), Memory>
    ensures { IfOk result (λ _. faults.new.items ≡ faults.old.items
        ++ (given.faults_on mode AlarmKind.U4 (pick (given.shown_if left.now.unset) (given.shown_if right.now.unset))
        ++ given.faults_on mode AlarmKind.U10
        (pick (given.shown_if left.now.mixed) (given.shown_if right.now.mixed)))) }
{
    note(
        faults,
        mode,
        AlarmKind::U4,
        shown_if(left.unset),
        shown_if(right.unset),
    )?;
    note(
        faults,
        mode,
        AlarmKind::U10,
        shown_if(left.mixed),
        shown_if(right.mixed),
    )
}

// A byte as both sides read it, with the faults of reading it.
fn byte_pair<N: Num>(
    mode: Mode,
    same_from: bool,
    state: &State<N>,
    places: &Places,
    byte: u32,
    faults: &mut Vec<Fault>,
) -> Result<PairValue<N>, Memory>
    requires room { BothHaveRoom (byte + 1) (shown_places places.now) }
    ensures value { IfOk result (λ v. v
        ≡ spec.byte_pair N.ops mode same_from state.now (shown_places places.now) byte) }
    ensures faults { OnOk result (faults.new.items
        ≡ faults.old.items ++ spec.byte_faults N.ops mode state.now (shown_places places.now) byte) }
{
    let left = byte_reads(state, Side::Left, &places.left, byte)?;
    let right = byte_reads(state, Side::Right, &places.right, byte)?;
    note_reads(mode, &left, &right, faults)?;
    let shared = all_shared(mode, left.shared, right.shared);
    Ok(pair_on(mode, left.side, right.side, same_from & shared))
}

// A byte is put out. Whether each running side has one.
fn byte_out<N: Num>(
    mode: Mode,
    same_from: bool,
    state: &State<N>,
    places: &Places,
    byte: u32,
    faults: &mut Vec<Fault>,
) -> Result<bool, Memory>
    requires room { BothHaveRoom (byte + 1) (shown_places places.now) }
    ensures goes { IfOk result (λ b. b ≡ goes_on N.ops mode same_from state.now (shown_places places.now) byte) }
    ensures faults { OnOk result (faults.new.items
        ≡ faults.old.items ++ next_faults N.ops mode same_from state.now (shown_places places.now) byte) }
{
    let v = byte_pair(mode, same_from, state, places, byte, faults)?;
    if !has_values(mode, &v) {
        return Ok(false);
    }
    note_differing(mode, &v, faults)?;
    Ok(true)
}

// Bytes are put out in turn. Whether each running side has them all.
fn bytes_out<N: Num>(
    mode: Mode,
    same_from: bool,
    state: &State<N>,
    places: &Places,
    bytes: u32,
    faults: &mut Vec<Fault>,
) -> Result<bool, Memory>
    requires room { BothHaveRoom bytes (shown_places places.now) }
    ensures goes { IfOk result (λ b. spec.if_goes_on b state.now
        ≡ (spec.bytes_out N.ops mode same_from state.now (shown_places places.now) 0 bytes).next) }
    ensures faults { OnOk result (faults.new.items ≡ faults.old.items
        ++ (spec.bytes_out N.ops mode same_from state.now (shown_places places.now) 0 bytes).faults) }
{
    for byte in 0..bytes {
        if !byte_out(mode, same_from, state, places, byte, faults)? {
            return Ok(false);
        }
    }
    Ok(true)
}

/// Bytes are put out from the places of an address. None is left where a running side has no place or lacks one of
/// them. The faults are added to those that are there. Costs a search for each byte and each place.
pub fn written_out<N: Num>(
    mode: Mode,
    sizes: &[u32],
    bytes: u32,
    from: &PairValue<N>,
    state: State<N>,
    faults: &mut Vec<Fault>,
) -> Result<Option<State<N>>, Memory>
    ensures next { IfOk result (λ r. r ≡ (spec.written_out N.ops sizes.now mode bytes from.now state).next) }
    ensures faults { OnOk result (faults.new.items
        ≡ faults.old.items ++ (spec.written_out N.ops sizes.now mode bytes from.now state).faults) }
{
    range_faults(mode, sizes, bytes, from, faults)?;
    let places = run_places(state.allocator(), sizes, bytes, from)?;
    if !has_places(mode, &places) {
        return Ok(None);
    }
    if !bytes_out(mode, same(from), &state, &places, bytes, faults)? {
        return Ok(None);
    }
    Ok(Some(state))
}
