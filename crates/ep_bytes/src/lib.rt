//! The memory of a machine, byte by byte.
#![tactic(auto)]

mod cells;
mod numbers;
mod pages;
mod reads;
mod spans;
mod store;
mod types;

pub use numbers::{decode, encode};
pub use store::Store;
pub use types::{Byte, Datum};
