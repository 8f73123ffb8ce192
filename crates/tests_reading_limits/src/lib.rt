//! Tests of the reader of programs: a whole program and its fronts, and how much may stand inside one another.
#![tactic(auto)]

#[cfg(test)]
mod limits;
