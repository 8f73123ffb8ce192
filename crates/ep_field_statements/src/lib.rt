//! Statements and initialisers that read or write a bit-field.
#![tactic(auto)]

mod statements;

pub use statements::{field_given, field_statement};
