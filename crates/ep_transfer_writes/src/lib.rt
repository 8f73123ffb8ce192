//! A pair of values is written at the places of an access.
#![tactic(auto)]

mod cells;
mod changes;
mod item;
mod ranges;
mod runs;
mod sides;
mod writes;

pub use item::{Item, Underway};
pub use ranges::{is_whole, item_cell, run_at};
pub use runs::{blurred_side, write_run};
pub use writes::{write, write_now};
