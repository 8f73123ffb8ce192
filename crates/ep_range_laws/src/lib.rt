//! Definitions and laws of ranges, and of where arithmetic of two ranges may be undefined. There is no function here.
#![tactic(auto)]
