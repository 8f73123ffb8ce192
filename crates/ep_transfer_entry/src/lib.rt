//! The state in which a program's main begins.
#![tactic(auto)]

mod cells;
mod start;
mod values;

pub use start::entry;
