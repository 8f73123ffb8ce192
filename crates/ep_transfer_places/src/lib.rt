//! The places of an access on both sides, and what may go wrong with its address.
#![tactic(auto)]

pub mod faults;
pub mod places;
pub mod runs;

pub use places::Places;
