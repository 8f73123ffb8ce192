//! First values of objects: the statements that store them, and of globals the numbers that their bytes begin with.
#![tactic(auto)]

mod constants;
mod first;
mod lists;
mod parts;
mod values;

pub use first::first_given;
pub use lists::{Given, cleared, count_listed};
