//! Forms: what is known of the bits of a number, as fixed bits and bits of memory cells.
#![tactic(auto)]

mod boxed;
mod cell;
mod form;
mod segment;

pub use boxed::BoxedForm;
pub use cell::{CellName, Side};
pub use form::Form;
pub use segment::Segment;
