//! Values and bytes that are put out.
#![tactic(auto)]

mod bytes;
mod outputs;

pub use bytes::written_out;
pub use outputs::{note_alone, note_difference, put_out};
