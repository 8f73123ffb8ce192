//! Definitions and laws of congruence classes, on plain numbers. There is no function here.
#![tactic(auto)]
