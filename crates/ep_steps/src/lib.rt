//! Statements of a program on a machine of a byte order, step by step.
#![tactic(auto)]

mod moves;
mod steps;

pub use steps::{Stop, execute};
