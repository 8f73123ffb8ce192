//! Writing cells as they stand in certificates.
#![tactic(auto)]

mod bytes;
mod cells;
mod forms;
mod pointers;

pub use bytes::{put_byte, put_low};
pub use cells::put_cells;
