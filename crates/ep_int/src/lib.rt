//! Integer types and their numbers, C arithmetic on them, byte orders and data models.
#![tactic(auto)]

mod machines;
mod numbers;
mod operators;
mod types;

pub use machines::{place, pointer_bytes, size};
pub use numbers::{bits, bytes, greatest, in_range, is_signed, least, wrap};
pub use operators::{arith, common, promote};
pub use types::{BinOp, Cmp, IntType, Memory, Model, Order, Scalar, Undef};
