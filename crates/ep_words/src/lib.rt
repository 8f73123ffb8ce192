//! The words of the command line: what they ask, or that they aren't plain.
#![tactic(auto)]

mod command;
mod numbers;
mod options;

pub use command::{CheckWords, Command, ProveWords, RunWords, SampleWords, asked, input_numbers};
