//! What an analysis reports in its passes, and what its report promises: definitions and laws.
#![tactic(auto)]

pub mod laws;
