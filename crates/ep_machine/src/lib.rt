//! A machine in a run: values of expressions and places on it, its memory, its inputs and its outputs.
#![tactic(auto)]

mod evaluate;
mod fault;
mod machine;
mod operators;
mod output;
mod reads;
mod setting;

pub use evaluate::{address, value};
pub use fault::{Fault, fault_of};
pub use machine::{Machine, bytes_in, check};
pub use operators::is_true;
pub use output::Output;
pub use reads::{load, size_of_block};
pub use setting::Setting;
