//! Lists in shared parts, walks over cells in them, and an index of what forms mention.
#![tactic(auto)]

pub mod numbers;
pub mod parts;
pub mod uses;
pub mod walks;
