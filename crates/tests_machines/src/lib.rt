//! Tests of the byte memory, as tables.
#![tactic(auto)]

#[cfg(test)]
mod bytes;
