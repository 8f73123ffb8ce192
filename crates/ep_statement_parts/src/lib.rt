//! Simple statements, headings, blocks and arms put together from their parts, kept while nothing in them is too deep.
#![tactic(auto)]

mod kept;

pub use kept::{
    Counted, block_of, block_tree_of, break_loop, continue_loop, declares, evaluate,
    first_declares, first_evaluates, given_of, heading_from, one_arm, over, return_value, states,
    test_of, two_arms,
};
