//! Whole calls of the program, over a source and a sink in memory.
#![tactic(auto)]

mod cases;

pub use cases::{Case, Prepared, USAGE_TEXT, call};
pub use endport::Status;
