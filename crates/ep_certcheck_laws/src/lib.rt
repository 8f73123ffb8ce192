//! What a checker of certificates finds in a program whose loops are given their heads: definitions and a law.
#![tactic(auto)]

pub mod laws;
