//! The typed core program: what a source means, in a few forms of expression and statement.
#![tactic(auto)]

mod build;
pub mod laws;
pub mod program;
pub mod tree;
pub mod typing_laws;

pub use build::program_of;
