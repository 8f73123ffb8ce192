//! Tests of sources and sinks: in memory, files, and standard output.
#![tactic(auto)]

#[cfg(test)]
mod copies;
#[cfg(test)]
mod system;
