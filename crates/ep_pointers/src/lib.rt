//! Pointers of an analysis: null, and the blocks into which a pointer may point, each with the offsets there.
#![tactic(auto)]

mod compare;
mod lawful;
mod merge;
mod sum;
mod value;

pub use compare::Truths;
pub use lawful::laws;
pub use sum::PtrSum;
pub use value::PtrValue;
