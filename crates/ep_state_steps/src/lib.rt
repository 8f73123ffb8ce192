//! Cells of a state that change one after another: split, parted, crossed, those that another state lacks, and those
//! that become one.
#![tactic(auto)]

mod crossing;
mod lacking;
mod levelling;
mod machines;
mod parting;
mod resharing;
mod runs;
mod splitting;
mod turns;
mod two;

pub use levelling::level_both;
pub use machines::machines_of;
pub use resharing::{Reshare, reshare_all};
pub use splitting::split_all;
pub use turns::part_both;
pub use two::States;
