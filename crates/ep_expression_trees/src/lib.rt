//! Expressions put together from their parts, kept while they aren't too deep.
#![tactic(auto)]

mod kept;

pub use kept::{
    Arguments, BoundedTree, Prefix, Suffix, assign, binary, conditional, name, number, prefixed,
    size_of, suffixed,
};
