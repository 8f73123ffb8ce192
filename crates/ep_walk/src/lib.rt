//! The walk of the analysis through a program, whatever it keeps of a state.
#![tactic(auto)]

mod program;

pub use program::walk;
