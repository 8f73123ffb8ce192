//! The core program of a text.

ghost use Rattle.std.specs.Prelude.{◌≡◌, IfOk, IfErr};
ghost use Rattle.ep_ast.specs.Refusal.{IfRefused};
ghost use Rattle.ep_ast.specs.Statement.{program_of as items};
ghost use Rattle.ep_ast.specs.declared.refusals.Refusal.{Refusal};
ghost use Rattle.ep_core.specs.Program.{Program};
ghost use Rattle.ep_core.specs.ProgramView.{program_view};
ghost use Rattle.ep_elaboration.specs.ProgramRules.{MeansProgram};
ghost use Rattle.ep_elaboration.specs.ProgramOffences.{ProgramOffends};

use crate::whole::parts_of_program;
use ep_ast::{Halt, ProgramTree};
use ep_core::program::CoreProgram;
use ep_core::program_of;
use ep_int::Model;
use std::alloc::Global;

/// The core program of a tree in a data model. A refusal is the first in the order of the text, then of the checks of
/// the whole program.
pub fn elaborate(alloc: Global, tree: &ProgramTree, model: Model) -> Result<CoreProgram, Halt>
    ensures means { IfOk result (λ p. MeansProgram model (items tree.now) (program_view p)) }
    ensures only { IfOk result (λ p. (q : Program) → MeansProgram model (items tree.now) q → q ≡ program_view p) }
    ensures faultless { IfOk result (λ _. (r : Refusal) → ProgramOffends model (items tree.now) r → ⊥) }
    ensures offends { IfErr result (λ e. IfRefused e (ProgramOffends model (items tree.now))) }
    ensures means_nothing { IfErr result
        (λ e. IfRefused e (λ _. (p : Program) → MeansProgram model (items tree.now) p → ⊥)) }
{
    let parts = parts_of_program(alloc, tree, model)?;
    Ok(program_of(
        parts.types,
        parts.blocks,
        parts.init,
        parts.functions,
        parts.main,
    ))
}
