//! Cells of a state that are looked for: about a place, at a place on both sides, and those that another state lacks.
#![tactic(auto)]

pub mod beside;
pub mod looking;
pub mod twins;
