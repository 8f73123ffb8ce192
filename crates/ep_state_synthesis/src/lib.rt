//! What is read of what is known of two memories, how cells of it are split, and how two states are made alike.
#![tactic(auto)]

mod reading;
mod splitting;
mod unifying;

pub use ep_scalar_reads::ReadValue;
pub use ep_state_steps::States;
pub use reading::{read, read_at};
pub use splitting::split;
pub use unifying::{unified, unify};
