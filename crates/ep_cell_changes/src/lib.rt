//! Weak writes, killed and entered blocks and resharing of lists of cells, and whether cells are a state.
#![tactic(auto)]

pub mod check;
pub mod entry;
pub mod kill;
pub mod reshare;
pub mod weak;
pub mod windows;
