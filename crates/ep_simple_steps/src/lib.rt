//! Statements that hold no statement, on a machine of a byte order.
#![tactic(auto)]

mod clearing;
mod statements;

pub use statements::{
    assign, clear, copy_aggregate, copy_bytes, eval, fill, give_back, input, output, read_bytes,
    write_bytes,
};
