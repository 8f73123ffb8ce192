//! Cells of states as a table spells them: from text and as text.
#![tactic(auto)]

pub mod reading;
pub mod writing;
