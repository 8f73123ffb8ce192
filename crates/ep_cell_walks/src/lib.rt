//! What is known of the cells of two memories, as states on a walk of the analysis.
#![tactic(auto)]

mod alarms;
mod blocks;
mod known;
mod pairs;
mod running;
mod statements;
mod truths;

pub use blocks::block_sizes;
pub use known::KnownCells;
