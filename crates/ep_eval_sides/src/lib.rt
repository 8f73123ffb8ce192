//! Operators of expressions over what is known of their operands, on one side and on both.
#![tactic(auto)]

pub mod forms;
pub mod operators;
pub mod pairs;
pub mod sides;
