//! Reading declarators with their initialisers and parameters, the words that begin a declaration, and declarations.
#![tactic(auto)]

mod aggregates;
mod bracketed;
mod declarators;
mod fields;
mod heads;
mod initialisers;
mod parameters;
mod specs;
mod typedefs;
mod variables;
mod words;

pub use declarators::{Named, declarator};
pub use heads::{Headed, head};
pub use initialisers::inits;
pub use parameters::{ParameterList, head_parameters};
pub use specs::{Context, SpecList, only_body, spec_list};
pub use typedefs::typedef_names;
pub use variables::{declaration, make_declaration};
