//! What statements and the bodies of functions mean, or for what they are refused.
#![tactic(auto)]

mod headings;
mod walk;

pub use walk::parts;
