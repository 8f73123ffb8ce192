//! Reading statements and blocks.
#![tactic(auto)]

mod blocks;

pub use blocks::block;
