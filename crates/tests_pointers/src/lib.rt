//! Tests of pointers, as tables.
#![tactic(auto)]

#[cfg(test)]
mod pointers;
