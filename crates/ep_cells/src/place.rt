//! Places: bytes of a block, on a side.

use ep_bitslice::Side;

/// So many bytes of a block, on a side.
#[derive(Clone, Copy, Debug)]
pub struct ByteRange {
    pub side: Side,
    pub block: u32,
    /// In bytes, from the start of the block.
    pub offset: u32,
    pub bytes: u32,
}
