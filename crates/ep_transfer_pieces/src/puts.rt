//! What is to be written at offsets of the aggregate.

ghost use Rattle.std.specs.Prelude.{◌≡◌, ◌++◌, ◌∷◌, [], Bool, false, ◌&&◌, IfOk};
ghost use Rattle.ep_equalities.specs.declared.pair.Mode.TheVariants.{Both};
ghost use Rattle.ep_evaluation.specs.Given.{alone, cells_of};
ghost use Rattle.ep_transfers.specs.Copies as spec;
ghost use Rattle.ep_transfers.specs.Places.{at_side, moved_spots};
ghost use Rattle.ep_transfer_places.specs.Room.{view};
ghost use Rattle.ep_transfer_writes.specs.Waiting.{item_view};
ghost use Rattle.ep_transfer_pieces.specs.Pieces.{piece_view, side_of, CanPut};
ghost use Rattle.ep_transfer_pieces.specs.Puts.{alone_item, is_nothing, are_alike, Adds, IsPut, AreSources};

use crate::items::piece_item;
use crate::on::On;
use crate::sources::Sources;
use crate::walk::{Part, Piece};
use ep_bitslice::Side;
use ep_cell_rows::places::is_same_scalar;
use ep_domain::Num;
use ep_equalities::Mode;
use ep_int::{IntType, Memory, Scalar};
use ep_reads::ReadValue;
use ep_states::State;
use ep_transfer_places::Places;
use ep_transfer_writes::Item;
use std::alloc::Global;

/// A write, so far from the places on.
#[derive(Drop)]
pub(crate) struct Put<N> {
    pub mode: Mode,
    pub offset: u32,
    pub what: Scalar,
    pub item: Item<N>,
}

fn push<N: Num>(puts: &mut Vec<Put<N>>, put: Put<N>) -> Result<(), Memory>
    ensures { IfOk result (λ _. puts.new.items ≡ puts.old.items ++ put ∷ []) }
{
    puts.push(put).map_err(|_| Memory)
}

fn scalar_of<N: Num>(piece: Piece) -> Scalar
    ensures { result ≡ spec.scalar_of_piece N.ops (piece_view N.ops piece) }
{
    match piece {
        Piece::Nothing => Scalar::Int(IntType::U8),
        Piece::Whole(what) => what,
        Piece::Byte => Scalar::Int(IntType::U8),
    }
}

// ---- a side alone

fn alone_item<N: Num>(alloc: Global, on: On, reads: &[ReadValue<N>]) -> Result<Item<N>, Memory>
    ensures { IfOk result (λ i. item_view i ≡ alone_item N.ops (side_of on) reads.now) }
{
    let none = Vec::new(alloc);
    match on {
        On::Left => piece_item(false, reads, &none, false),
        On::Right => piece_item(false, &none, reads, false),
    }
}

fn alone_put<N: Num>(
    alloc: Global,
    on: On,
    offset: u32,
    piece: Piece,
    reads: &[ReadValue<N>],
) -> Result<Put<N>, Memory>
    ensures { IfOk result (λ p. IsPut (alone (side_of on)) offset (spec.scalar_of_piece N.ops (piece_view N.ops piece))
        (alone_item N.ops (side_of on) reads.now) p) }
{
    let item = alone_item(alloc, on, reads)?;
    Ok(Put {
        mode: on.mode(),
        offset,
        what: scalar_of::<N>(piece),
        item,
    })
}

fn is_nothing(piece: Piece) -> bool
    ensures { result ≡ is_nothing piece }
{
    match piece {
        Piece::Nothing => true,
        Piece::Whole(_) => false,
        Piece::Byte => false,
    }
}

/// What a side writes of its own piece is added.
pub(crate) fn push_alone<N: Num>(
    puts: &mut Vec<Put<N>>,
    on: On,
    state: &State<N>,
    from: &Places,
    offset: u32,
    part: &Part<N>,
) -> Result<(), Memory>
    requires { AreSources N.ops state.now (cells_of (side_of on)) part.now.next.piece
        (moved_spots offset (at_side (view from.now) (side_of on))) part.now.sources }
    ensures { IfOk result (λ _. (joint : Bool) → Adds N.ops joint state.now.model puts.old.items puts.new.items
        (λ to. spec.write_alone N.ops joint state.now to (view from.now) [] (side_of on) offset
        (piece_view N.ops part.now.next.piece))
        (λ n. CanPut N.ops state.now (cells_of (side_of on)) (at_side (view from.now) (side_of on)) n offset
        (piece_view N.ops part.now.next.piece))) }
{
    if is_nothing(part.next.piece) {
        return Ok(());
    }
    let put = alone_put(
        state.allocator(),
        on,
        offset,
        part.next.piece,
        &part.sources.reads,
    )?;
    push(puts, put)
}

// ---- both sides

fn together_put<N: Num>(
    joint: bool,
    offset: u32,
    piece: Piece,
    left: &Sources<N>,
    right: &Sources<N>,
) -> Result<Put<N>, Memory>
    ensures { IfOk result (λ p. IsPut Both offset (spec.scalar_of_piece N.ops (piece_view N.ops piece))
        (spec.piece_item N.ops joint left.now.reads.items right.now.reads.items
        (left.now.shared && right.now.shared)) p) }
{
    let shared = left.shared & right.shared;
    let item = piece_item(joint, &left.reads, &right.reads, shared)?;
    Ok(Put {
        mode: Mode::Both,
        offset,
        what: scalar_of::<N>(piece),
        item,
    })
}

fn push_together<N: Num>(
    puts: &mut Vec<Put<N>>,
    joint: bool,
    state: &State<N>,
    from: &Places,
    offset: u32,
    piece: Piece,
    left: &Sources<N>,
    right: &Sources<N>,
) -> Result<(), Memory>
    requires some { is_nothing piece ≡ false }
    requires left { AreSources N.ops state.now Side.Left piece (moved_spots offset (view from.now).left) left.now }
    requires right { AreSources N.ops state.now Side.Right piece (moved_spots offset (view from.now).right) right.now }
    ensures { IfOk result (λ _. Adds N.ops joint state.now.model puts.old.items puts.new.items
        (λ to. spec.write_together N.ops joint state.now to (view from.now) [] offset (piece_view N.ops piece))
        (λ n. CanPut N.ops state.now Side.Left (view from.now).left n offset (piece_view N.ops piece)
        × CanPut N.ops state.now Side.Right (view from.now).right n offset (piece_view N.ops piece))) }
{
    let put = together_put(joint, offset, piece, left, right)?;
    push(puts, put)
}

fn are_alike(left: Piece, right: Piece) -> bool
    ensures { result ≡ are_alike left right }
{
    match left {
        Piece::Nothing => false,
        Piece::Whole(w) => match right {
            Piece::Nothing => false,
            Piece::Whole(v) => is_same_scalar(w, v),
            Piece::Byte => false,
        },
        Piece::Byte => match right {
            Piece::Nothing => false,
            Piece::Whole(_) => false,
            Piece::Byte => true,
        },
    }
}

/// What both sides write of their pieces is added: together where they are alike, and else the left's first.
pub(crate) fn push_both<N: Num>(
    puts: &mut Vec<Put<N>>,
    joint: bool,
    state: &State<N>,
    from: &Places,
    offset: u32,
    left: &Part<N>,
    right: &Part<N>,
) -> Result<(), Memory>
    requires left { AreSources N.ops state.now Side.Left left.now.next.piece
        (moved_spots offset (view from.now).left) left.now.sources }
    requires right { AreSources N.ops state.now Side.Right right.now.next.piece
        (moved_spots offset (view from.now).right) right.now.sources }
    ensures { IfOk result (λ _. Adds N.ops joint state.now.model puts.old.items puts.new.items
        (λ to. spec.write_pieces N.ops joint state.now to (view from.now) [] offset
        (piece_view N.ops left.now.next.piece) (piece_view N.ops right.now.next.piece))
        (λ n. CanPut N.ops state.now Side.Left (view from.now).left n offset
        (piece_view N.ops left.now.next.piece)
        × CanPut N.ops state.now Side.Right (view from.now).right n offset
        (piece_view N.ops right.now.next.piece))) }
{
    if are_alike(left.next.piece, right.next.piece) {
        return push_together(
            puts,
            joint,
            state,
            from,
            offset,
            left.next.piece,
            &left.sources,
            &right.sources,
        );
    }
    push_alone(puts, On::Left, state, from, offset, left)?;
    push_alone(puts, On::Right, state, from, offset, right)
}
