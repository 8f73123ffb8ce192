//! Each type of a program that a source means has bytes: a law alone.
#![tactic(auto)]

ghost use Rattle.ep_sized_types.specs.Laws.{ProgramsHaveBytes};

/// Does nothing: its contract is that each type that has a size has bytes, in every program that a source means.
pub fn sized_types()
    ensures { ProgramsHaveBytes }
{}
