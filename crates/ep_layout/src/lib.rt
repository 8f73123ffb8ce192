//! Sizes, alignments, offsets and leaves of types.
#![tactic(auto)]

mod extent;
mod list;
mod members;
mod table;
mod types;

pub use table::Types;
pub use types::{LayoutStop, Leaf, Member, PointedRow, TableMark, Ty};
