//! What is read of cells, how cells are split, and steps of single cells: definitions and laws.
#![tactic(auto)]

mod laws;
mod read;

pub use laws::{read_laws, split_laws, step_laws, unify_laws};
pub use read::ReadValue;
