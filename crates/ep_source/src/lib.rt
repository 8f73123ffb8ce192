//! Reading a source whole: from its bytes to its core program.
#![tactic(auto)]

ghost use Rattle.std.specs.Prelude.{◌≡◌, ◌<◌, ◌^◌, length, IfOk, IfErr};
ghost use Rattle.ep_ast.specs.Refusal.{IfRefused};
ghost use Rattle.ep_ast.specs.declared.refusals.Refusal as refusals;
ghost use Rattle.ep_core.specs.Program.{Program};
ghost use Rattle.ep_core.specs.ProgramView.{program_view};
ghost use Rattle.ep_source.specs.Source.{Means, MeansNothing, MeansNothingWithin, Offends};

use ep_ast::Halt;
use ep_core::program::CoreProgram;
use ep_decls::program;
use ep_int::Model;
use ep_lexer::lex;
use ep_typer::elaborate;
use std::alloc::Global;

/// The core program of a source in a data model, where nothing in the source offends.
pub fn read(alloc: Global, source: &[u8], model: Model) -> Result<CoreProgram, Halt>
    requires { length source.now < 2 ^ 24 }
    ensures means { IfOk result (λ p. Means model source.now (program_view p)) }
    ensures only { IfOk result (λ p. (q : Program) → Means model source.now q → q ≡ program_view p) }
    ensures faultless { IfOk result (λ _. (r : refusals.Refusal) → Offends model source.now r → ⊥) }
    ensures refused { IfErr result (λ e. IfRefused e (Offends model source.now)) }
    ensures nothing { IfErr result (λ e. IfRefused e (MeansNothing model source.now)) }
    ensures within { IfErr result (λ e. IfRefused e (λ _. MeansNothingWithin model source.now)) }
{
    let tokens = lex(alloc, source)?;
    let tree = program(alloc, &tokens)?;
    // It stands without them, and what it means takes much memory.
    drop(tokens);
    elaborate(alloc, &tree, model)
}
