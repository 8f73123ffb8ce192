//! What stands round an expression: scopes with their names and tags, blocks, functions and the table of types.
#![tactic(auto)]

mod env;
mod fields;
mod marks;
mod names;
mod scopes;
mod words;

pub use env::{Env, FunctionType, add_type, type_number};
pub use fields::{FieldNames, Fields};
pub use marks::EnvMark;
pub use names::{mention_name, mention_words, named, named_type, words_type};
pub use scopes::{Mark, Meaning, Scope, Scopes};
