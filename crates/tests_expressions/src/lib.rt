//! Tests of the readers of expressions and of the names of types.
#![tactic(auto)]

#[cfg(test)]
mod expressions;
