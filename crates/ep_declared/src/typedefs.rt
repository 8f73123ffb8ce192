//! Names of types.

ghost use Rattle.std.specs.Prelude.{map, OnOk};
ghost use Rattle.ep_ast.specs.Declaration.{declarator};
ghost use Rattle.ep_layout.specs.Table.{Grows};
ghost use Rattle.ep_typing.specs.Results.{at};
ghost use Rattle.ep_elaboration.specs.Declarators as rule;
ghost use Rattle.ep_elaboration.specs.ProgramSteps as steps;
ghost use Rattle.ep_declared.specs.Refinement.{Adds};
ghost use Rattle.ep_declared.specs.Open.{Follows};
ghost use Rattle.ep_scopes.specs.Known.{IsKnown, IsKnownEnv};
ghost use Rattle.ep_scopes.specs.View.{env as env_view};

use crate::arrays::arrays_of;
use crate::counts::bounds;
use crate::naming::{declare_name, is_taken};
use ep_ast::{DeclaratorTree, Halt, RefusalKind};
use ep_operands::{refused, with_stars};
use ep_scopes::{Env, Meaning};
use ep_typing::CType;

#[tactic(auto, unfolding(ep_elaboration::specs::Declarators::declared_type))]
fn declared_type(
    env: &mut Env,
    line: u32,
    name: &[u8],
    c: CType,
    counts: &[u32],
) -> Result<(), Halt>
    requires known { IsKnownEnv (env_view env.old) }
    requires inside { IsKnown (env_view env.old).types c }
    ensures means { Adds (at line (rule.declared_type (env_view env.old) name.now c counts.now))
        (env_view env.new) result }
    ensures after { OnOk result (Follows (env_view env.old) (env_view env.new)) }
{
    if is_taken(env, name) {
        return Err(refused(RefusalKind::Redeclared, line));
    }
    let array = arrays_of(&mut env.types, c, line, counts)?;
    declare_name(env, name, Meaning::TypeName(array))?;
    Ok(())
}

#[tactic(auto, unfolding(ep_elaboration::specs::ProgramSteps::type_declared))]
fn type_declared(env: &mut Env, c: CType, d: &DeclaratorTree) -> Result<(), Halt>
    requires known { IsKnownEnv (env_view env.old) }
    requires inside { IsKnown (env_view env.old).types c }
    ensures means { Adds (steps.type_declared (env_view env.old) c (declarator d.now)) (env_view env.new) result }
    ensures after { OnOk result (Follows (env_view env.old) (env_view env.new)) }
{
    let counts = bounds(env, d.line, &d.bounds)?;
    let pointer = with_stars(c, d.stars.len())?;
    declared_type(env, d.line, &d.name, pointer, &counts)?;
    Ok(())
}

/// Typedefs one after another, by their declarators and the type of the words before them.
pub fn types_declared(env: &mut Env, c: CType, list: &[DeclaratorTree]) -> Result<(), Halt>
    requires known { IsKnownEnv (env_view env.old) }
    requires inside { IsKnown (env_view env.old).types c }
    ensures means { Adds (steps.types_declared (env_view env.old) c (map declarator list.now))
        (env_view env.new) result }
    ensures known { OnOk result (IsKnownEnv (env_view env.new)) }
    ensures grown { OnOk result (Grows (env_view env.old).types (env_view env.new).types) }
{
    for d in list {
        type_declared(env, c, d)?;
    }
    Ok(())
}
