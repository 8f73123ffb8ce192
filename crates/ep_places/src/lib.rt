//! What operators of one operand, elements, members, casts and sizes come to.
#![tactic(auto)]

mod elements;
mod members;
mod pointers;
mod sizes;
mod unary;

pub use elements::{indexable, indexed};
pub use members::selected;
pub use pointers::{moved, pointed};
pub use sizes::{casted, sized, type_sized};
pub use unary::{is_mark, unary_typed};
