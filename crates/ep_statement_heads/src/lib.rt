//! Heads of statements, which wait while the statements inside them are read.
#![tactic(auto)]

mod frames;

pub use frames::{Completed, Frame, complete, opening};
