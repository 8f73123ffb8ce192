//! Tests of the reader of programs: which it accepts, as which trees, and which it refuses.
#![tactic(auto)]

#[cfg(test)]
mod programs;
