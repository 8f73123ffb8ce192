//! Reports on closed and steady programs, and runs in which turns alone are counted: laws alone.
#![tactic(auto)]

pub mod laws;
mod runs;

pub use runs::bounded_runs;
