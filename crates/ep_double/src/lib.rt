//! Of which kinds a program is, so that more is promised of it.
#![tactic(auto)]

mod closed;
mod mover;
mod tame;

pub use closed::is_closed;
pub use mover::is_mover;
pub use tame::is_tame;
