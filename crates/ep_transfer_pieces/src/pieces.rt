//! The copy of an aggregate by its pieces: all of them are read in the state before, and then written.

ghost use Rattle.std.specs.Prelude.{◌≡◌, ◌≤◌, ◌+◌, ◌^◌, ℕ, Bool, IfOk};
ghost use Rattle.ep_int.specs.Types.{size_of};
ghost use Rattle.ep_cells.specs.Kill.{AreLeavesIn};
ghost use Rattle.ep_cells.specs.States.{IsOfSort, Known};
ghost use Rattle.ep_evaluation.specs.Given.{alone};
ghost use Rattle.ep_transfers.specs.Copies as spec;
ghost use Rattle.ep_transfers.specs.Places.{Places as SpecPlaces, at_side};
ghost use Rattle.ep_transfer_places.specs.Room.{HaveRoom, BothHaveRoom, view};
ghost use Rattle.ep_transfer_pieces.specs.Pieces.{side_of};
ghost use Rattle.ep_transfer_pieces.specs.Puts.{after_puts, FitPuts};

use crate::on::On;
use crate::puts::{Put, push_alone, push_both};
use crate::rows::{put_next, settled, written};
use crate::several::{places_apart, put_at_each};
use crate::walk::{Walk, next_part};
use ep_bitslice::Side;
use ep_domain::Num;
use ep_equalities::Mode;
use ep_int::Memory;
use ep_layout::Leaf;
use ep_reads::read_laws;
use ep_states::State;
use ep_transfer_places::Places;

// What a side writes by itself.
fn puts_alone<N: Num>(
    on: On,
    state: &State<N>,
    leaves: &[Leaf],
    from: &Places,
    bytes: u32,
) -> Result<Vec<Put<N>>, Memory>
    requires leaves { AreLeavesIn state.now.model 0 bytes leaves.now }
    requires from { HaveRoom bytes (at_side (view from.now) (side_of on)) }
    ensures value { IfOk result (λ v. (joint : Bool) (to : SpecPlaces) (j : Known N)
        → after_puts N.ops joint to v.items j ≡ spec.pieces_from N.ops joint state.now to (view from.now) leaves.now
        (alone (side_of on)) 0 bytes j) }
    ensures fits { IfOk result (λ v. FitPuts state.now.model bytes v.items) }
{
    read_laws::<N>();
    state.model();
    let mut puts = Vec::new(state.allocator());
    let side = on.cells();
    let spots = on.places(from);
    let mut walk = Walk::first();
    for o in 0..bytes {
        let part = next_part(state, side, spots, leaves, walk, o)?;
        push_alone(&mut puts, on, state, from, o, &part)?;
        walk = part.next.walk;
    }
    Ok(puts)
}

// What both sides write.
fn puts_both<N: Num>(
    joint: bool,
    state: &State<N>,
    leaves: &[Leaf],
    from: &Places,
    bytes: u32,
) -> Result<Vec<Put<N>>, Memory>
    requires leaves { AreLeavesIn state.now.model 0 bytes leaves.now }
    requires from { BothHaveRoom bytes (view from.now) }
    ensures value { IfOk result (λ v. (to : SpecPlaces) (j : Known N)
        → after_puts N.ops joint to v.items j ≡ spec.pieces_from N.ops joint state.now to (view from.now) leaves.now
        Mode.Both 0 bytes j) }
    ensures fits { IfOk result (λ v. FitPuts state.now.model bytes v.items) }
{
    read_laws::<N>();
    state.model();
    let mut puts = Vec::new(state.allocator());
    let mut left = Walk::first();
    let mut right = Walk::first();
    for o in 0..bytes {
        let on_left = next_part(state, Side::Left, &from.left, leaves, left, o)?;
        let on_right = next_part(state, Side::Right, &from.right, leaves, right, o)?;
        push_both(&mut puts, joint, state, from, o, &on_left, &on_right)?;
        left = on_left.next.walk;
        right = on_right.next.walk;
    }
    Ok(puts)
}

fn all_puts<N: Num>(
    mode: Mode,
    joint: bool,
    state: &State<N>,
    leaves: &[Leaf],
    from: &Places,
    bytes: u32,
) -> Result<Vec<Put<N>>, Memory>
    requires leaves { AreLeavesIn state.now.model 0 bytes leaves.now }
    requires from { BothHaveRoom bytes (view from.now) }
    ensures value { IfOk result (λ v. (to : SpecPlaces) (j : Known N)
        → after_puts N.ops joint to v.items j ≡ spec.pieces_from N.ops joint state.now to (view from.now) leaves.now
        mode 0 bytes j) }
    ensures fits { IfOk result (λ v. FitPuts state.now.model bytes v.items) }
{
    match mode {
        Mode::Both => puts_both(joint, state, leaves, from, bytes),
        Mode::Left => puts_alone(On::Left, state, leaves, from, bytes),
        Mode::Right => puts_alone(On::Right, state, leaves, from, bytes),
    }
}

// One write after the other.
fn put_all<N: Num>(
    puts: Vec<Put<N>>,
    joint: bool,
    to: &Places,
    state: State<N>,
) -> Result<State<N>, Memory>
    requires fits { (n : ℕ) × (FitPuts state.model n puts.items × BothHaveRoom n (view to.now)) }
    ensures value { IfOk result (λ s. s ≡ after_puts N.ops joint (view to.now) puts.items state) }
    ensures model { IfOk result (λ s. s.model ≡ state.model) }
{
    let mut now = settled(state);
    for p in puts {
        let next = put_next(now, joint, to, p)?;
        now = next;
    }
    written(now)
}

/// An aggregate goes from the places of an address to those of another by its leaves and bytes. Costs in proportion to
/// the bytes and to the places: what goes to one place, on one side or to one cell of both, is written at once where it
/// lies next to each other and nothing lies partly there; so is, at each of them, what goes to several places of both
/// sides that lie apart, where just such cells stand there. Else it is a write for each.
pub fn copied_by_pieces<N: Num>(
    mode: Mode,
    joint: bool,
    leaves: &[Leaf],
    to: &Places,
    from: &Places,
    bytes: u32,
    state: State<N>,
) -> Result<State<N>, Memory>
    requires leaves { AreLeavesIn state.model 0 bytes leaves.now }
    requires to { BothHaveRoom bytes (view to.now) }
    requires from { BothHaveRoom bytes (view from.now) }
    ensures value { IfOk result (λ s. s ≡ spec.pieces_from N.ops joint state (view to.now) (view from.now) leaves.now
        mode 0 bytes state) }
    ensures model { IfOk result (λ s. s.model ≡ state.model) }
{
    let puts = all_puts(mode, joint, &state, leaves, from, bytes)?;
    match places_apart(state.allocator(), joint, to, bytes)? {
        None => put_all(puts, joint, to, state),
        Some(spots) => put_at_each(puts, joint, to, bytes, &spots, state),
    }
}
