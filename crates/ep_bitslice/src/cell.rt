//! Names of integer cells: a side, a place and a type.

use ep_int::IntType;

/// Whose memory a cell is part of.
#[derive(Clone, Copy, Debug, PartialEq, Eq)]
pub enum Side {
    Left,
    Right,
    /// Both memories, with the same number in each.
    Shared,
}

/// An integer cell of memory: its side, its place and its type.
#[derive(Clone, Copy, Debug, PartialEq, Eq)]
pub struct CellName {
    pub side: Side,
    pub block: u32,
    /// In bytes, from the start of the block.
    pub offset: u32,
    pub t: IntType,
}
