//! The parts of statements on a walk of the analysis, and what is done with one of them alone.
#![tactic(auto)]

pub mod follow;
