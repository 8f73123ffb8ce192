//! Reading expressions.
#![tactic(auto)]

mod frames;
mod look;
mod parser;
mod place;

pub use ep_expression_trees::BoundedTree;
pub use ep_reading::TypeNames;
pub use parser::read_expression;
pub use place::expression;
