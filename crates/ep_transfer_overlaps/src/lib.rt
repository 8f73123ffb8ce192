//! Whether a copy may go between ranges that overlap.
#![tactic(auto)]

mod apart;
mod overlaps;

pub use apart::can_copy;
pub use overlaps::overlap_faults;
