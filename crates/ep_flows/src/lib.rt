//! States in which statements are left, what a walk through a program tells, and heads of loops that come round.
#![tactic(auto)]

pub mod bound;
pub mod flow;
pub mod heads;
pub mod laws;
pub mod log;
pub mod setting;
pub mod states;
