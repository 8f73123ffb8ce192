//! Numeric domains: what an abstract number promises, and which pairs of numbers may be undefined.
#![tactic(auto)]

mod fault;
mod num;
mod outcome;
mod pair;
mod product;
pub mod ranges;

pub use fault::range_fault;
pub use num::Num;
pub use outcome::Outcome;
pub use pair::Pair;
