//! Tests of the tokens of a source, and of the lines of refusals.
#![tactic(auto)]

#[cfg(test)]
mod refusals;
#[cfg(test)]
mod tokens;
