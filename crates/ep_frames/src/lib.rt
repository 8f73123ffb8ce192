//! The stack of what is still to do while statements run: how its frames are pushed and left, and calls.
#![tactic(auto)]

mod calls;
mod frames;
mod leaving;

pub use calls::{call, put_dest, put_to};
pub use frames::{Bytes, Frame, Now, Round, Way, push};
pub use leaving::{leave, left_by, read_byte, write_byte};
