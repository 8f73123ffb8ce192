//! Bytes and aggregates are copied from the places of one address to those of another.
#![tactic(auto)]

mod addresses;
mod copies;
mod moves;
mod spots;

pub use addresses::copy;
