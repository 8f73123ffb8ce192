//! What a text means as a core program, item by item, or for what it is refused.
#![tactic(auto)]

mod kept;
mod program;
mod walk;
mod whole;

pub use program::elaborate;
pub use walk::{item, items};
pub use whole::{Parts, parts_of_program};
