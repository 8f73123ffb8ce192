//! Tests of layouts, as tables.
#![tactic(auto)]

#[cfg(test)]
mod layout;
