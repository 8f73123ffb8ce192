//! Calls: arguments that go to parameters, and results that are received.
#![tactic(auto)]

mod frames;
mod passing;
mod receiving;

pub use ep_transfer_results as results;
pub use passing::arguments;
pub use receiving::result;
