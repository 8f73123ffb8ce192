//! Cells next to each other that may be written at each of several places.
#![tactic(auto)]

mod facing;
mod rows;
mod spaced;

pub use rows::weaken_rows;
pub use spaced::are_spaced;
