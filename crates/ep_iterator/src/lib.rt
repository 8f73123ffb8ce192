//! The analysis of a program for two machines at once, over what is known of the cells of their memories.
#![tactic(auto)]

mod report;

pub use report::{Report, analyse};
