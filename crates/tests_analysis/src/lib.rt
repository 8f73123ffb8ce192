//! Tests of the definitions of the analysis.
#![tactic(auto)]
