//! Parts of evaluation that need no recursion: operators on values of typed expressions, operands and their cells, what
//! tests tell, and what operands have to be where a test has a truth.
#![tactic(auto)]

pub mod left;
pub mod limits;
pub mod modes;
pub mod operands;
pub mod own_types;
pub mod sure;
pub mod typed;
pub mod verdicts;

pub use ep_eval_loads::loads::load;
pub use ep_eval_loads::{After, Running};
