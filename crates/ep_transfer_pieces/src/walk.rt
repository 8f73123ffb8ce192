//! Which piece a side has at an offset of the aggregate: offsets go by in rising order, and leaves with them.

ghost use Rattle.std.specs.Prelude.{◌≡◌, ◌<◌, ◌+◌, ◌^◌, IfOk, IfSome, drop, length};
ghost use Rattle.ep_int.specs.Types.{size_of};
ghost use Rattle.ep_transfers.specs.Places.{moved_spots};
ghost use Rattle.ep_transfer_places.specs.Room.{HaveRoom};
ghost use Rattle.ep_transfer_pieces.specs.Puts.{AreSources};
ghost use Rattle.ep_transfer_pieces.specs.Walked as spec;

use crate::sources::{Sources, byte_sources, no_sources, whole_sources};
use ep_bitslice::Side;
use ep_domain::Num;
use ep_int::{Memory, Scalar};
use ep_layout::Leaf;
use ep_states::State;
use ep_transfer_places::places::moved_spots;

/// What a side has at an offset of the aggregate.
#[derive(Clone, Copy)]
pub(crate) enum Piece {
    /// It lies inside of a leaf that goes as a whole.
    Nothing,
    Whole(Scalar),
    Byte,
}

/// How many leaves have begun, and where the last one that goes as a whole ends.
#[derive(Clone, Copy)]
pub(crate) struct Walk {
    pub begun: usize,
    pub until: u64,
}

#[derive(Clone, Copy)]
pub(crate) struct Next {
    pub piece: Piece,
    pub walk: Walk,
}

/// A piece, where the next one begins, and what is read for it.
#[derive(Drop)]
pub(crate) struct Part<N> {
    pub next: Next,
    pub sources: Sources<N>,
}

impl Walk {
    /// No leaf has begun.
    pub(crate) fn first() -> Self
        ensures begun { result.begun ≡ 0 }
        ensures until { result.until ≡ 0 }
    {
        Walk { begun: 0, until: 0 }
    }
}

// The leaf that begins at an offset, of those that haven't begun.
fn first_leaf(leaves: &[Leaf], begun: usize, offset: u32) -> Option<Scalar>
    ensures value { result ≡ spec.first_leaf (drop begun leaves.now) offset }
    ensures within { IfSome result (λ _. begun < length leaves.now) }
{
    match leaves.get(begun) {
        None => None,
        Some(l) => {
            if l.offset == offset {
                return Some(l.what);
            }
            None
        }
    }
}

// No leaf begins.
fn between_leaves<N: Num>(
    state: &State<N>,
    side: Side,
    spots: &[(u32, u32)],
    walk: Walk,
    offset: u32,
) -> Result<Part<N>, Memory>
    requires { HaveRoom (offset + 1) spots.now }
    ensures next { IfOk result (λ r. r.next ≡ spec.next_byte walk offset) }
    ensures sources { IfOk result (λ r. AreSources N.ops state.now side r.next.piece
        (moved_spots offset spots.now) r.sources) }
{
    if u64::from(offset) < walk.until {
        let sources = no_sources(state.allocator());
        let piece = Piece::Nothing;
        return Ok(Part {
            next: Next { piece, walk },
            sources,
        });
    }
    let moved = moved_spots(state.allocator(), offset, spots)?;
    let sources = byte_sources(state, side, &moved)?;
    let piece = Piece::Byte;
    Ok(Part {
        next: Next { piece, walk },
        sources,
    })
}

fn next_leaf(exact: bool, walk: Walk, offset: u32, what: Scalar, size: u32) -> Next
    requires { walk.begun + 1 < 2 ^ 64 }
    ensures { result ≡ spec.next_leaf exact walk offset what size }
{
    let begun = walk.begun + 1;
    if exact {
        let until = u64::from(offset) + u64::from(size);
        return Next {
            piece: Piece::Whole(what),
            walk: Walk { begun, until },
        };
    }
    Next {
        piece: Piece::Byte,
        walk: Walk {
            begun,
            until: walk.until,
        },
    }
}

fn begun_leaf<N: Num>(
    state: &State<N>,
    side: Side,
    spots: &[(u32, u32)],
    walk: Walk,
    offset: u32,
    what: Scalar,
) -> Result<Part<N>, Memory>
    requires room { HaveRoom (offset + 1) spots.now }
    requires within { walk.begun + 1 < 2 ^ 64 }
    ensures next { IfOk result (λ r. r.next ≡ spec.next_leaf
        (spec.all_exact N.ops state.now side what (moved_spots offset spots.now)) walk offset what
        (size_of state.now.model what)) }
    ensures sources { IfOk result (λ r. AreSources N.ops state.now side r.next.piece
        (moved_spots offset spots.now) r.sources) }
{
    let size = ep_int::size(state.model(), what);
    let moved = moved_spots(state.allocator(), offset, spots)?;
    match whole_sources(state, side, what, &moved)? {
        None => {
            let next = next_leaf(false, walk, offset, what, size);
            let sources = byte_sources(state, side, &moved)?;
            Ok(Part { next, sources })
        }
        Some(sources) => {
            let next = next_leaf(true, walk, offset, what, size);
            Ok(Part { next, sources })
        }
    }
}

/// The piece at an offset, where the next one begins, and what is read for it.
pub(crate) fn next_part<N: Num>(
    state: &State<N>,
    side: Side,
    spots: &[(u32, u32)],
    leaves: &[Leaf],
    walk: Walk,
    offset: u32,
) -> Result<Part<N>, Memory>
    requires { HaveRoom (offset + 1) spots.now }
    ensures next { IfOk result (λ r. r.next
        ≡ spec.next_piece N.ops state.now side spots.now leaves.now walk offset) }
    ensures sources { IfOk result (λ r. AreSources N.ops state.now side r.next.piece
        (moved_spots offset spots.now) r.sources) }
{
    match first_leaf(leaves, walk.begun, offset) {
        None => between_leaves(state, side, spots, walk, offset),
        Some(what) => begun_leaf(state, side, spots, walk, offset, what),
    }
}
