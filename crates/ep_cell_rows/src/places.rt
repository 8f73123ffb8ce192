//! Sides, places and the order of cells.

ghost use Rattle.std.specs.Prelude.{◌≡◌, ◌+◌, ◌≤◌};
ghost use Rattle.ep_bitslice.specs.Bits.{side_number, type_number};
ghost use Rattle.ep_cells.specs.Cells.{on_left, on_right, share_memory, side_without, place_of, place_of_name};
ghost use Rattle.ep_cells.specs.Cells.{touches, meets, encloses, is_partly_in, is_same_scalar, is_same_place};
ghost use Rattle.ep_cells.specs.Cells.{is_same_side, is_same_cell, comes_before, key_of, scalar_number};
ghost use Rattle.ep_cells.specs.Look.{covers};
ghost use Rattle.ep_cells.specs.Weaken.{first_part};

use ep_bitslice::{CellName, Side};
use ep_cells::{ByteRange, Cell};
use ep_int::{IntType, Model, Scalar};

fn on_left(s: Side) -> bool
    ensures { result ≡ on_left s }
{
    match s {
        Side::Left => true,
        Side::Right => false,
        Side::Shared => true,
    }
}

fn on_right(s: Side) -> bool
    ensures { result ≡ on_right s }
{
    match s {
        Side::Left => false,
        Side::Right => true,
        Side::Shared => true,
    }
}

/// Whether two sides have a memory in common.
pub fn share_memory(s: Side, q: Side) -> bool
    ensures { result ≡ share_memory s q }
{
    on_left(s) && on_left(q) || on_right(s) && on_right(q)
}

/// What is left of the second side without the memories of the first.
pub fn side_without(s: Side, q: Side) -> Option<Side>
    ensures { result ≡ side_without s q }
{
    match s {
        Side::Left => without_left(q),
        Side::Right => without_right(q),
        Side::Shared => None,
    }
}

fn without_left(q: Side) -> Option<Side>
    ensures { result ≡ side_without Side.Left q }
{
    match q {
        Side::Left => None,
        Side::Right => Some(Side::Right),
        Side::Shared => Some(Side::Right),
    }
}

fn without_right(q: Side) -> Option<Side>
    ensures { result ≡ side_without Side.Right q }
{
    match q {
        Side::Left => Some(Side::Left),
        Side::Right => None,
        Side::Shared => Some(Side::Left),
    }
}

/// The first of the parts of a cell of this side.
pub fn first_part(s: Side) -> Side
    ensures { result ≡ first_part s }
{
    match s {
        Side::Left => Side::Left,
        Side::Right => Side::Right,
        Side::Shared => Side::Left,
    }
}

/// Where a cell lies.
pub fn place_of<N>(model: Model, c: &Cell<N>) -> ByteRange
    ensures { result ≡ place_of model c.now }
{
    ByteRange {
        side: c.side,
        block: c.block,
        offset: c.offset,
        bytes: ep_int::size(model, c.what),
    }
}

/// Where the integer cell of a name lies.
pub fn place_of_name(n: &CellName) -> ByteRange
    ensures { result ≡ place_of_name n.now }
{
    ByteRange {
        side: n.side,
        block: n.block,
        offset: n.offset,
        bytes: ep_int::bytes(n.t),
    }
}

/// Where a place ends.
pub fn end(p: &ByteRange) -> u64
    ensures { result ≡ p.now.offset + p.now.bytes }
{
    u64::from(p.offset) + u64::from(p.bytes)
}

/// Whether two places have an offset in common.
pub fn touches(p: &ByteRange, q: &ByteRange) -> bool
    ensures { result ≡ touches p.now q.now }
{
    p.block == q.block && u64::from(p.offset) < end(q) && u64::from(q.offset) < end(p)
}

/// Whether two places have a byte in common.
pub fn meets(p: &ByteRange, q: &ByteRange) -> bool
    ensures { result ≡ meets p.now q.now }
{
    share_memory(p.side, q.side) && touches(p, q)
}

/// Whether the second has bytes in the first, and others.
pub fn is_partly_in(p: &ByteRange, q: &ByteRange) -> bool
    ensures { result ≡ is_partly_in p.now q.now }
{
    share_memory(p.side, q.side) && touches(p, q) && !encloses(p, q)
}

fn encloses(p: &ByteRange, q: &ByteRange) -> bool
    ensures { result ≡ encloses p.now q.now }
{
    p.offset <= q.offset && end(q) <= end(p)
}

fn scalar_number(what: Scalar) -> u8
    ensures { result ≡ scalar_number what }
{
    match what {
        Scalar::Int(t) => type_number(t),
        Scalar::Pointer => 8,
    }
}

fn type_number(t: IntType) -> u8
    ensures { result ≡ type_number t }
{
    match t {
        IntType::I8 => 0,
        IntType::U8 => 1,
        IntType::I16 => 2,
        IntType::U16 => 3,
        IntType::I32 => 4,
        IntType::U32 => 5,
        IntType::I64 => 6,
        IntType::U64 => 7,
    }
}

/// The number by which cells of one offset stand in order.
pub fn side_number(s: Side) -> u8
    ensures value { result ≡ side_number s }
    ensures within { result ≤ 2 }
{
    match s {
        Side::Left => 0,
        Side::Right => 1,
        Side::Shared => 2,
    }
}

/// Whether two sides are one.
pub fn is_same_side(s: Side, q: Side) -> bool
    ensures { result ≡ is_same_side s q }
{
    side_number(s) == side_number(q)
}

/// Whether two scalar types are one.
pub fn is_same_scalar(v: Scalar, w: Scalar) -> bool
    ensures { result ≡ is_same_scalar v w }
{
    scalar_number(v) == scalar_number(w)
}

/// Whether two cells begin at one offset and have one type.
pub fn is_same_place<N>(x: &Cell<N>, y: &Cell<N>) -> bool
    ensures { result ≡ is_same_place x.now y.now }
{
    x.block == y.block && x.offset == y.offset && is_same_scalar(x.what, y.what)
}

/// Whether they are of one side too.
pub fn is_same_cell<N>(x: &Cell<N>, y: &Cell<N>) -> bool
    ensures { result ≡ is_same_cell x.now y.now }
{
    is_same_side(x.side, y.side) && is_same_place(x, y)
}

/// The number by which cells of a block stand in order.
pub fn key<N>(c: &Cell<N>) -> u64
    ensures { result ≡ key_of c.now }
{
    3 * u64::from(c.offset) + u64::from(side_number(c.side))
}

/// Whether the first cell stands before the second.
pub fn comes_before<N>(c: &Cell<N>, x: &Cell<N>) -> bool
    ensures { result ≡ comes_before c.now x.now }
{
    c.block < x.block || c.block == x.block && key(c) < key(x)
}

/// Whether a cell of that side, or a Shared one, has the byte.
pub fn covers<N>(model: Model, s: Side, block: u32, byte: u32, c: &Cell<N>) -> bool
    ensures { result ≡ covers model s block byte c.now }
{
    (is_same_side(c.side, s) || is_same_side(c.side, Side::Shared))
        && c.block == block
        && c.offset <= byte
        && u64::from(byte) < u64::from(c.offset) + u64::from(ep_int::size(model, c.what))
}
