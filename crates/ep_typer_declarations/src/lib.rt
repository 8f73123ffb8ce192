//! Declarations of variables: their objects, and the statements and first values that they come to.
#![tactic(auto)]

mod declarations;
mod made;

pub use declarations::declaration;
pub use made::Made;
