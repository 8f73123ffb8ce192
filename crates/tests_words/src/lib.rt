//! The words of tables of tests: types, operators, comparisons, ranges and congruence classes.
#![tactic(auto)]

mod words;

pub use words::{Ends, class, comparison, ends, int_type, maybe_class, maybe_ends, operator};
