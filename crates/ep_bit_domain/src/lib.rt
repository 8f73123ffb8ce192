//! Definitions and laws of known bits as values of a domain. There is no function here.
#![tactic(auto)]
