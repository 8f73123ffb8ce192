//! What is known of an expression's value on both machines at once.
#![tactic(auto)]

mod equality;
mod pair;

pub use equality::same;
pub use pair::{Fault, Mode, PairValue, SideValue};
