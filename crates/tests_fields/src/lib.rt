//! Tests of bit-fields: units that they share, and statements that use one.
#![tactic(auto)]

#[cfg(test)]
mod fields;
