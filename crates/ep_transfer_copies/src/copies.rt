//! Which rule a copy goes by.

ghost use Rattle.std.specs.Prelude.{◌≡◌, IfOk, IfSome, is_some};
ghost use Rattle.std.specs.Option.{option_map};
ghost use Rattle.ep_cells.specs.Kill.{AreLeavesIn};
ghost use Rattle.ep_cell_ranges.specs.Moves.{blurred_each};
ghost use Rattle.ep_evaluation.specs.Given.{cells_of};
ghost use Rattle.ep_transfers.specs.Copies as spec;
ghost use Rattle.ep_transfers.specs.Places.{at_side};
ghost use Rattle.ep_transfer_places.specs.Room.{BothHaveRoom, HaveRoom, view};
ghost use Rattle.ep_transfer_pieces.specs.Pieces.{side_of};

use crate::moves::{moved_alone, moved_both};
use crate::spots::{Spot, go_together, is_one_to_one, loosened_places, one_move};
use ep_domain::Num;
use ep_equalities::Mode;
use ep_int::Memory;
use ep_layout::Leaf;
use ep_state_ranges::blur_each;
use ep_states::State;
use ep_transfer_pieces::{On, copied_by_pieces};
use ep_transfer_places::Places;

/// Whether the copy is of an aggregate.
pub(crate) fn is_aggregate(leaves: Option<&[Leaf]>) -> bool
    ensures { result ≡ is_some (option_map (λ ls. ls.now) leaves.entry) }
{
    match leaves {
        None => false,
        Some(_) => true,
    }
}

fn by_pieces<N: Num>(
    mode: Mode,
    joint: bool,
    leaves: &[Leaf],
    to: &Places,
    from: &Places,
    bytes: u32,
    state: State<N>,
) -> Result<State<N>, Memory>
    requires leaves { AreLeavesIn state.model 0 bytes leaves.now }
    requires to { BothHaveRoom bytes (view to.now) }
    requires from { BothHaveRoom bytes (view from.now) }
    ensures value { IfOk result (λ s. s ≡ spec.pieces_from N.ops joint state
        (spec.loosened_places (view to.now) (view from.now)) (view from.now) leaves.now mode 0 bytes state) }
    ensures model { IfOk result (λ s. s.model ≡ state.model) }
{
    let loosened = loosened_places(state.allocator(), to, from)?;
    copied_by_pieces(mode, joint, leaves, &loosened, from, bytes, state)
}

// ---- a side alone

fn blurred<N: Num>(on: On, to: &Places, bytes: u32, state: State<N>) -> Result<State<N>, Memory>
    ensures value { IfOk result (λ s. s ≡ blurred_each N.ops (cells_of (side_of on)) bytes
        (at_side (view to.now) (side_of on)) state) }
    ensures model { IfOk result (λ s. s.model ≡ state.model) }
{
    let held = Vec::new(state.allocator());
    let after = blur_each(state, on.cells(), bytes, on.places(to), held)?;
    Ok(after.0)
}

// Several places. Of no bytes a pointer around a place is still broken.
fn copy_many<N: Num>(
    on: On,
    leaves: Option<&[Leaf]>,
    to: &Places,
    from: &Places,
    bytes: u32,
    state: State<N>,
) -> Result<State<N>, Memory>
    requires leaves { IfSome leaves (λ ls. AreLeavesIn state.model 0 bytes ls.now) }
    requires to { BothHaveRoom bytes (view to.now) }
    requires from { BothHaveRoom bytes (view from.now) }
    ensures value { IfOk result (λ s. s ≡ spec.copy_many N.ops (side_of on) (option_map (λ ls. ls.now) leaves.entry)
        (view to.now) (view from.now) bytes state) }
    ensures model { IfOk result (λ s. s.model ≡ state.model) }
{
    match leaves {
        None => blurred(on, to, bytes, state),
        Some(leaves) => {
            if bytes == 0 {
                return blurred(on, to, 0, state);
            }
            by_pieces(on.mode(), false, leaves, to, from, bytes, state)
        }
    }
}

fn move_one<N: Num>(
    on: On,
    aggregate: bool,
    to: &[Spot],
    from: &[Spot],
    bytes: u32,
    state: State<N>,
) -> Result<State<N>, Memory>
    requires { HaveRoom bytes to.now }
    ensures value { IfOk result (λ s. s ≡ spec.move_one N.ops (side_of on) aggregate to.now from.now bytes state) }
    ensures model { IfOk result (λ s. s.model ≡ state.model) }
{
    match to {
        [] => Ok(state),
        [q, ..] => match from {
            [] => Ok(state),
            [p, ..] => moved_alone(on, aggregate, *q, *p, bytes, state),
        },
    }
}

fn copy_alone<N: Num>(
    on: On,
    leaves: Option<&[Leaf]>,
    to: &Places,
    from: &Places,
    bytes: u32,
    state: State<N>,
) -> Result<State<N>, Memory>
    requires leaves { IfSome leaves (λ ls. AreLeavesIn state.model 0 bytes ls.now) }
    requires to { BothHaveRoom bytes (view to.now) }
    requires from { BothHaveRoom bytes (view from.now) }
    ensures value { IfOk result (λ s. s ≡ spec.copy_alone N.ops (side_of on) (option_map (λ ls. ls.now) leaves.entry)
        (view to.now) (view from.now) bytes state) }
    ensures model { IfOk result (λ s. s.model ≡ state.model) }
{
    let written = on.places(to);
    let read = on.places(from);
    if is_one_to_one(written, read) {
        return move_one(on, is_aggregate(leaves), written, read, bytes, state);
    }
    copy_many(on, leaves, to, from, bytes, state)
}

// The left first.
fn copy_sides<N: Num>(
    leaves: Option<&[Leaf]>,
    to: &Places,
    from: &Places,
    bytes: u32,
    state: State<N>,
) -> Result<State<N>, Memory>
    requires leaves { IfSome leaves (λ ls. AreLeavesIn state.model 0 bytes ls.now) }
    requires to { BothHaveRoom bytes (view to.now) }
    requires from { BothHaveRoom bytes (view from.now) }
    ensures { IfOk result (λ s. s ≡ spec.copy_sides N.ops (option_map (λ ls. ls.now) leaves.entry) (view to.now)
        (view from.now) bytes state) }
{
    let left = copy_alone(On::Left, leaves, to, from, bytes, state)?;
    copy_alone(On::Right, leaves, to, from, bytes, left)
}

// ---- both sides together

fn copy_pieces<N: Num>(
    leaves: Option<&[Leaf]>,
    together: bool,
    to: &Places,
    from: &Places,
    bytes: u32,
    state: State<N>,
) -> Result<State<N>, Memory>
    requires leaves { IfSome leaves (λ ls. AreLeavesIn state.model 0 bytes ls.now) }
    requires to { BothHaveRoom bytes (view to.now) }
    requires from { BothHaveRoom bytes (view from.now) }
    ensures { IfOk result (λ s. s ≡ spec.copy_pieces N.ops (option_map (λ ls. ls.now) leaves.entry) together
        (view to.now) (view from.now) bytes state) }
{
    match leaves {
        None => copy_sides(None, to, from, bytes, state),
        Some(some) => {
            if together && bytes != 0 {
                return by_pieces(Mode::Both, true, some, to, from, bytes, state);
            }
            copy_sides(Some(some), to, from, bytes, state)
        }
    }
}

// Of the same addresses on both sides: one place to one, or by pieces.
fn copy_moved<N: Num>(
    leaves: Option<&[Leaf]>,
    to: &Places,
    from: &Places,
    bytes: u32,
    state: State<N>,
) -> Result<State<N>, Memory>
    requires leaves { IfSome leaves (λ ls. AreLeavesIn state.model 0 bytes ls.now) }
    requires to { BothHaveRoom bytes (view to.now) }
    requires from { BothHaveRoom bytes (view from.now) }
    ensures { IfOk result (λ s. s ≡ spec.copy_moved N.ops (option_map (λ ls. ls.now) leaves.entry) (view to.now)
        (view from.now) bytes (view to.now).left (view to.now).right (view from.now).left (view from.now).right
        state) }
{
    match one_move(to, from) {
        None => copy_pieces(leaves, go_together::<N>(to, from), to, from, bytes, state),
        Some(m) => moved_both(is_aggregate(leaves), m.0, m.1, bytes, state),
    }
}

/// So many bytes go from places to places: of an aggregate with its leaves, of bytes with none; `joint` where both
/// addresses surely are the same on both sides. One place goes to one by its cells; an aggregate at several goes by its
/// leaves and bytes; other bytes at several may have been written in whatever way.
pub(crate) fn copied<N: Num>(
    mode: Mode,
    joint: bool,
    leaves: Option<&[Leaf]>,
    to: &Places,
    from: &Places,
    bytes: u32,
    state: State<N>,
) -> Result<State<N>, Memory>
    requires leaves { IfSome leaves (λ ls. AreLeavesIn state.model 0 bytes ls.now) }
    requires to { BothHaveRoom bytes (view to.now) }
    requires from { BothHaveRoom bytes (view from.now) }
    ensures { IfOk result (λ s. s ≡ spec.copied N.ops mode joint (option_map (λ ls. ls.now) leaves.entry)
        (view to.now) (view from.now) bytes state) }
{
    match mode {
        Mode::Both => {
            if joint {
                return copy_moved(leaves, to, from, bytes, state);
            }
            copy_sides(leaves, to, from, bytes, state)
        }
        Mode::Left => copy_alone(On::Left, leaves, to, from, bytes, state),
        Mode::Right => copy_alone(On::Right, leaves, to, from, bytes, state),
    }
}
