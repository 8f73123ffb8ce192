//! What programs mean, and that this is what the rules say: definitions and laws.
#![tactic(auto)]

mod calls;
mod laws;

pub use calls::{depths, orders, recursion};
pub use laws::{declarations, growth, programs, statements, whole_statements};
