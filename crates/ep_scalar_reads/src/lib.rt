//! What is read of a scalar: its bytes in a cell, one cell that has it, and its bytes together.
#![tactic(auto)]

pub mod byte;
mod machines;
pub mod read;

pub use ep_reads::ReadValue;
pub use machines::Machines;
