//! Heads of functions, what functions and their prototypes mean, or for what they are refused.
#![tactic(auto)]

mod done;
mod functions;
mod heads;
mod names;
mod params;

pub use done::Done;
pub use functions::{Body, Typed, function_defined, function_typed, next_block, prototype};
pub use heads::{behind_result, headed, params_of};
pub use names::{declarable, function_declared, is_same_signature};
