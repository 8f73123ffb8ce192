//! What an expression means, in the order in which it is found, and that this is what the rules say.
#![tactic(auto)]

mod laws;
mod types;

pub use laws::{bit_fields, expressions};
pub use types::{Base, CType, FieldRow};
