//! Statements without statements in them that evaluate expressions and store or put out one value or a run of bytes.
#![tactic(auto)]

mod operands;
mod statements;

pub use ep_transfer_fills::assigned;
pub use operands::{place_at, typed_value};
pub use statements::{assign, evaluate, fill, give_back, input, output, read_bytes, write_bytes};
