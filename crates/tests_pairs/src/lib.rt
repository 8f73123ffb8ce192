//! Tests of pairs of numeric domains, as tables.
#![tactic(auto)]

#[cfg(test)]
mod pairs;
