//! Reading programs.
#![tactic(auto)]

mod functions;
mod items;
mod look;
mod top;
mod trees;
mod unnamed;

pub use top::program;
