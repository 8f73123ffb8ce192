//! `if` statements and loops put together from their heads and the statements inside, kept while nothing in them is too
//! deep.
#![tactic(auto)]

mod headed;

pub use headed::{do_loop, for_loop, if_else, if_then, while_loop};
