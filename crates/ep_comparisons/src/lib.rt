//! What comparisons, joined truths and `? :` come to.
#![tactic(auto)]

mod choices;
mod comparisons;
mod truths;

pub use choices::chosen;
pub use comparisons::{equated, ordered};
pub use truths::{both, either};
