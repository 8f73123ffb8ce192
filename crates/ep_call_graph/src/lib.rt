//! Calls among functions: which lead to one another, their order, and how deep their statements stand.
#![tactic(auto)]

mod cycles;
mod deep;
mod order_of;
mod places;

pub use cycles::labels;
pub use deep::depths;
pub use order_of::{flags, functions_in_order};
pub use places::{CallSite, callees};
