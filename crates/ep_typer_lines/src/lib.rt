//! What tests, expressions as statements, jumps and returns mean, or for what they are refused, and lines of the core.
#![tactic(auto)]

mod headings;
mod nodes;
mod scoping;
mod simple;

pub use headings::for_lines;
pub use nodes::{branched, by_order, looped, one_line, order_of, scoped};
pub use scoping::{blocks_here, enter, leave};
pub use simple::{evaluated_if, evaluated_in, jump, returned, tested_if, tested_in, tested_inside};
