//! What is read at an address, and what is left of a state where the cell of a load has another value.
#![tactic(auto)]

mod after;
pub mod loads;
pub mod narrowing;
mod near;
mod running;

pub use after::{After, either};
pub use running::Running;
