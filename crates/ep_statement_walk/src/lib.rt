//! The walk of the analysis through statements and the functions that they call, whatever it keeps of a state.
#![tactic(auto)]

mod statements;

pub use statements::pass_function;
