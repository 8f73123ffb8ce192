//! Generated sources, to try the analysis on, and what is told of them.
#![tactic(auto)]

mod sample;
mod text;

pub use sample::sample_source;
pub use text::{Sample, sample_text};
