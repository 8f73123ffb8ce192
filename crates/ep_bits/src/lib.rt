//! Known bits, as a numeric domain.
#![tactic(auto)]

mod edges;
mod known_bits;
mod masks;
mod operators;
mod results;

pub use known_bits::KnownBits;
