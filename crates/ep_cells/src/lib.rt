//! What is known of the cells of two memories, and that operations on them are sound: definitions and laws.
#![tactic(auto)]

mod cell;
mod laws;
mod place;

pub use cell::{Cell, Value};
pub use laws::{inclusion_laws, join_laws, kill_laws, reshare_laws, weak_write_laws, write_laws};
pub use place::ByteRange;
