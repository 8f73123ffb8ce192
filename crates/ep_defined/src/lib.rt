//! What a program comes to as its text is read.
#![tactic(auto)]

mod sofar;

pub use sofar::{Defined, Sofar};
