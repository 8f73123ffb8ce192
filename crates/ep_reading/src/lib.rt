//! What all readers of the grammar use: their state, the parts that they read, looks at the first tokens, the names of
//! types, trees that aren't too deep, and the count of open brackets.
#![tactic(auto)]

mod brackets;
mod look;
mod measured;
mod names;
mod reader;

pub use brackets::{brackets_past, opens_past};
pub use look::{
    Head, at_else, at_end_if, at_if, at_mark, at_name, at_word, ends_arm, first_of, last_line,
};
pub use measured::{Measured, pushed};
pub use names::TypeNames;
pub use reader::{Part, Reader};
