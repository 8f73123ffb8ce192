//! Tests of calls that find little memory.
#![tactic(auto)]

#[cfg(test)]
mod little_memory;
