//! Sizes and alignments.

/// How many bytes a type takes, and what its address is a multiple of.
#[derive(Clone, Copy, Debug)]
pub(crate) struct Extent {
    pub size: u32,
    pub align: u32,
}

/// The most bytes that a type may have.
pub(crate) const MOST_BYTES: u32 = 65_536;
