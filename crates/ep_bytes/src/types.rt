//! What a byte and a scalar hold.

/// What a byte of a memory holds.
#[derive(Clone, Copy, Debug, PartialEq, Eq)]
pub enum Byte {
    /// It was never written, or what it held is gone.
    Undefined,
    Number(u8),
    /// A part of a pointer: the block and the offset to which it points, and the number of the part, counted from 0 by
    /// rising address.
    Fragment(u32, u32, u8),
}

/// What a scalar holds.
#[derive(Clone, Copy, Debug, PartialEq, Eq)]
pub enum Datum {
    Int(i128),
    Null,
    /// A block, and an offset in bytes.
    Pointer(u32, u32),
}
