//! The checker of certificates: whether a program does the same on two machines, by heads of loops that are given. It
//! checks by inclusion, and never widens.
#![tactic(auto)]

mod cells;
mod naming;
mod outside;
mod verdict;

pub use verdict::{Verdict, verify};
