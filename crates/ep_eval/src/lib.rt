//! What expressions and places give over what is known of two memories, what a test gives, and what is left of a state
//! where a test has a truth.
#![tactic(auto)]

mod calls;
mod evaluate;

pub use calls::{address, eval, second, test};
pub use ep_eval_forms::pieces::left::{Assumed, Second, Wants};
pub use ep_eval_forms::pieces::verdicts::{Verdict, is_only, verdict_of};
pub use ep_eval_forms::pieces::{After, Running};
pub use evaluate::assumed_on_both;
