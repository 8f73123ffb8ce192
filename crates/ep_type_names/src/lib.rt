//! Reading the names of types: what begins one, its words and its stars.
#![tactic(auto)]

mod look;
mod words;

pub use look::{begins_type, is_tag_word};
pub use words::{TypeBag, next_word, stars, type_name, type_words};
