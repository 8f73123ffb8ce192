//! An aggregate is copied by its leaves, where each source has a cell of a leaf's type there, and else by its bytes.
#![tactic(auto)]

mod items;
mod on;
mod pieces;
mod puts;
mod rows;
mod several;
mod sources;
mod walk;

pub use on::On;
pub use pieces::copied_by_pieces;
