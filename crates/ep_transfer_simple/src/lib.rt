//! Every statement without statements in it.
#![tactic(auto)]

mod objects;
mod statements;

pub use statements::simple;
