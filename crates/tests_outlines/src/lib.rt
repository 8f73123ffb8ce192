//! Programs that were read, as text that tests compare.
#![tactic(auto)]

mod outlines;

pub use outlines::{items, tree};
