//! Definitions and laws of known bits, on plain numbers. There is no function here.
#![tactic(auto)]
