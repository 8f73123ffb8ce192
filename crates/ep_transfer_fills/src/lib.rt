//! Statements that store: assignment, input, input of bytes and fill.
#![tactic(auto)]

mod fills;
mod inputs;
mod stores;

pub use fills::filled_with;
pub use inputs::{input_pair, read_in};
pub use stores::assigned;
