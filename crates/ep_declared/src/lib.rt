//! What declarators and the bodies of structs and unions declare.
#![tactic(auto)]

mod arrays;
mod bodies;
mod closing;
mod counts;
mod entries;
mod fields;
mod members;
mod naming;
mod objects;
mod tags;
mod typedefs;
mod widths;
mod words;

pub use arrays::arrays_of;
pub use bodies::{body_declared, specs_declared};
pub use counts::{bound, bounds};
pub use naming::{declare_name, is_taken};
pub use objects::{Object, object_declared};
pub use typedefs::types_declared;
pub use words::{copy_word, words_declared};
