//! Reports on movers, whose bytes the text tells on each machine: laws alone.
#![tactic(auto)]

pub mod laws;
