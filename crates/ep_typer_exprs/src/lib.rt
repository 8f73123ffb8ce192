//! What expressions mean, or for what they are refused, and what they declare.
#![tactic(auto)]

mod fields;
mod mentions;
mod nodes;
mod walk;

pub use fields::{FieldPlace, field_of};
pub use mentions::{mention, mention_all};
pub use walk::{callee, meaning, typed, typed_all, typed_alone};
