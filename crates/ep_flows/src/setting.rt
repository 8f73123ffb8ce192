//! What stays the same on a walk, and who runs.

ghost use Rattle.std.specs.Prelude.{◌≡◌, map};
ghost use Rattle.ep_core.specs.Program.{Block};
ghost use Rattle.ep_core.specs.ProgramView.{program_view};

use ep_core::program::CoreProgram;
use ep_int::Order;
use std::alloc::Global;

/// One of two machines.
#[derive(Clone, Copy, Debug, PartialEq, Eq)]
pub enum Machine {
    Left,
    Right,
}

/// Both machines run, or one while the other stands still.
#[derive(Clone, Copy, Debug, PartialEq, Eq)]
pub enum Running {
    Together,
    Alone(Machine),
}

/// What a test says of the truths on the running machines.
#[derive(Clone, Copy, Debug, PartialEq, Eq)]
pub enum Truths {
    Stuck,
    Same,
    Differs,
}

/// A program, the byte orders of the two machines, so many turns that are unrolled, and the number of the last head.
#[derive(Clone, Copy)]
pub struct Setting<'p> {
    pub alloc: Global,
    pub program: &'p CoreProgram,
    /// The sizes of the program's blocks, in bytes, by their numbers.
    pub sizes: &'p [u32],
    pub left: Order,
    pub right: Order,
    pub unroll: u32,
    pub limit: u128,
    ghost sized: { sizes.now ≡ map (λ (b : Block). b.size) (program_view program.now).blocks },
}
