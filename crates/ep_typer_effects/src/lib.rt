//! What whole statements that are expressions mean: tests, assignments, steps and calls.
#![tactic(auto)]

mod assignments;
mod calls;
mod right;
mod statements;

pub use calls::call_typed;
pub use right::{Right, assigned_from, right_side};
pub use statements::{test, whole_statement};
