//! Definitions and laws of congruences as values of a domain. There is no function here.
#![tactic(auto)]
