//! Kinds of programs of which more is promised: definitions, and worked rows of them.
#![tactic(auto)]
