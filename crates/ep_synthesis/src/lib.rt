//! What cells become that are split, or that others cross.
#![tactic(auto)]

pub mod cross;
pub mod split;

pub use ep_scalar_reads::{Machines, ReadValue, byte, read};
