//! Cells: what is known of a scalar of one memory, or of both.

use ep_bitslice::{BoxedForm, Side};
use ep_int::Scalar;
use ep_pointers::PtrValue;

/// What is known of a cell's value.
#[derive(Drop)]
pub enum Value<N> {
    Num(N),
    Ptr(PtrValue<N>),
}

/// A scalar of one memory, or the same scalar of both.
#[derive(Drop)]
pub struct Cell<N> {
    pub side: Side,
    pub block: u32,
    /// In bytes, from the start of the block.
    pub offset: u32,
    pub what: Scalar,
    /// Without a value the cell is undefined, and then `maybe` is set.
    pub value: Option<Value<N>>,
    /// Whether it may be undefined as well.
    pub maybe: bool,
    /// The bits of the number, where they are known.
    pub form: Option<BoxedForm>,
}
