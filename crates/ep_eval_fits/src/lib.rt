//! What the types of a program give to the evaluation of its expressions: definitions and lemmas alone.
#![tactic(auto)]
