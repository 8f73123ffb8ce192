//! What is known of the cells of two memories.
#![tactic(auto)]

mod state;

pub use state::State;
