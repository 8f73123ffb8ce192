//! What comes when a statement begins.
#![tactic(auto)]

mod choices;
mod statements;

pub use statements::begin;
