//! Results of calls as they are loaded, and the result of main compared.
#![tactic(auto)]

mod results;

pub use results::{ended, loaded_result};
