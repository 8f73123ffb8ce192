//! Tests of congruence classes, as tables.
#![tactic(auto)]

#[cfg(test)]
mod congruences;
