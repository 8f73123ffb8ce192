//! Which functions the statements of a text call, what is checked of a whole program, and its functions in order.
#![tactic(auto)]

mod bodies;
mod checks;
mod cycles;
mod depths;
mod numbers;
mod order;
mod renumbered;
mod stands;
mod statements;
mod text;

pub use checks::{CallOrder, checked};
pub use order::{OrderedFunctions, ordered};
pub use text::places_of;
