//! Tame programs: where their places lie, and their reports. Laws alone.
#![tactic(auto)]

pub mod laws;
pub mod part_laws;
pub mod row_laws;
