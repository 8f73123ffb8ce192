//! What is assigned, what calls are passed, and where results go.
#![tactic(auto)]

mod calls;
mod stores;

pub use calls::{Action, Called, Parameter, all_passed, length_at};
pub use stores::{assigned, operator_of, taken, updated};
