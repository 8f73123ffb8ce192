//! Definitions and laws of intervals, on plain numbers. There is no function here.
#![tactic(auto)]
