//! Blocks of a program come and go, and its main begins.
#![tactic(auto)]

mod blocks;

pub use blocks::entered;
