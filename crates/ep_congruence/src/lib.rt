//! Congruences, as a numeric domain.
#![tactic(auto)]

mod congruence;
mod gcd;
mod numbers;
mod operators;
mod results;

pub use congruence::Congruence;
