//! The blocks of a program.

ghost use Rattle.std.specs.Prelude.{◌≡◌, IfOk, map};
ghost use Rattle.ep_core.specs.Program.{Block};
ghost use Rattle.ep_core.specs.ProgramView.{program_view};

use ep_core::program::CoreProgram;
use ep_int::Memory;
use std::alloc::Global;

/// The sizes of the program's blocks, in bytes, by their numbers.
pub fn block_sizes(alloc: Global, program: &CoreProgram) -> Result<Vec<u32>, Memory>
    ensures { IfOk result (λ v. v.items ≡ map (λ (b : Block). b.size) (program_view program.now).blocks) }
{
    ep_eval_programs::block_sizes(alloc, program)
}
