//! What operators of two values come to.
#![tactic(auto)]

mod numbers;
mod operators;

pub use operators::operated;
