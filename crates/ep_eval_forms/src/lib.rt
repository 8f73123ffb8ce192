//! What forms of expressions give on one side, and what they leave, by what their operands have given.
#![tactic(auto)]

pub mod asks;
pub mod cells;
pub mod tested;

pub use ep_eval_parts as pieces;
