//! Reading statements in which no statement stands, and such pieces of others.
#![tactic(auto)]

mod pieces;
mod single;

pub use pieces::{do_end, for_heading, in_parens};
pub use single::simple;
