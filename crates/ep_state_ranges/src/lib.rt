//! Ranges of what is known of two memories: places that get new cells, several places that may be written, and what a
//! copy takes of a place. Forms that are held outside of a state go along while it changes.
#![tactic(auto)]

mod cuts;
mod facing;
mod forms;
mod rows;
mod spots;
mod taking;

pub use cuts::{cut, replace};
pub use forms::Held;
pub use rows::{blur_each, weaken_each};
pub use spots::all_spots;
pub use taking::{moved_to, taken, taken_by_both};
