//! What functions by byte order define, or for what they are refused.
#![tactic(auto)]

mod alike;
mod arms;
mod heads;
mod joining;

pub use arms::arms_defined;
