//! Statements that clear: 0 or null goes to each leaf of a type, and every other byte of it is undefined.
#![tactic(auto)]

mod cells;
mod clears;
mod items;
mod walks;

pub use clears::cleared;
