//! What a machine puts out.

use ep_int::IntType;

/// A number that was put out, with its type.
#[derive(Debug, Clone, Copy, PartialEq, Eq)]
pub struct Output {
    pub t: IntType,
    pub value: i128,
}
