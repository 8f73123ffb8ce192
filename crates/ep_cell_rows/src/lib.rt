//! Operations on cells, and on lists of cells.
#![tactic(auto)]

pub mod cell;
pub mod change;
pub mod places;
pub mod rows;
pub mod values;

pub use ep_cells::{ByteRange, Cell, Value};
