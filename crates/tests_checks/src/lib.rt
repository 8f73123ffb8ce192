//! Tests of the command `check` on sources of the whole language, as tables.
#![tactic(auto)]

#[cfg(test)]
mod checks;
