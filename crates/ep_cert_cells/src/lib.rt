//! Cells as bytes, as they stand in certificates, and reading them.
#![tactic(auto)]

mod bytes;
mod cells;
mod forms;
mod numbers;
mod pointers;
mod unread;

pub use bytes::{byte, eight, four};
pub use cells::cells_at;
pub use numbers::Numbers;
pub use unread::Unread;
