//! Intervals, as a numeric domain.
#![tactic(auto)]

mod ends;
mod interval;
mod results;

pub use interval::Interval;
