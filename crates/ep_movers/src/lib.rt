//! Programs that only move bytes, each to one place: definitions, and worked rows of them.
#![tactic(auto)]

/// Why a machine goes no further.
#[derive(Clone, Copy, Debug)]
pub enum Stop {
    /// No mover does this.
    Foreign,
    /// Its behaviour is undefined.
    Faulty,
}
