//! What a checker of certificates answers on closed and steady programs: a law.
#![tactic(auto)]

pub mod laws;
