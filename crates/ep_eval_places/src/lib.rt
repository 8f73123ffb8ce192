//! Places at an address: where a scalar may lie, what is read there, and addresses that are moved.
#![tactic(auto)]

pub mod elements;
pub mod moves;
pub mod places;
