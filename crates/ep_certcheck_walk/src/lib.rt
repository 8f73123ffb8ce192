//! The walk of a checker through a program whose loops are given their heads: it stops at what it finds first.
#![tactic(auto)]

pub mod found;
mod given;
mod parts;
mod statements;
pub mod states;
mod stop;

pub use found::{Found, check};
