//! The outside as the program sees it: sources of bytes that stand under names, and sinks for bytes.
#![tactic(auto)]

mod engines;
mod faults;
mod in_memory;
mod outside;
mod system;

pub use engines::{read_all, write_all};
pub use in_memory::{MemSink, MemSource};
pub use outside::{Failed, ReadStop, Sink, Source};
pub use system::{FileSource, StdSink, command_words};
