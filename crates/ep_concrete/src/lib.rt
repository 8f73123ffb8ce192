//! Runs a program on a machine of a byte order.
#![tactic(auto)]

mod runs;
mod start;
mod text;
mod types;

pub use runs::run;
pub use text::run_text;
pub use types::{Ending, RunResult};
