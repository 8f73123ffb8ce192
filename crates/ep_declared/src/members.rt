//! The members of a struct or union, one after another.

ghost use Rattle.std.specs.Prelude.{◌≡◌, ◌++◌, [], ◌∷◌, map, OnOk, IsFalse};
ghost use Rattle.ep_ast.specs.Declaration.{declarator, member_field};
ghost use Rattle.ep_typing.specs.Results.{at};
ghost use Rattle.ep_typing.specs.Types as types_of;
ghost use Rattle.ep_elaboration.specs.Aggregates as rule;
ghost use Rattle.ep_declared.specs.Refinement.{Adds, OnAnswer};
ghost use Rattle.ep_declared.specs.Open.{AreTypes, Follows};
ghost use Rattle.ep_scopes.specs.Comes.{Comes};
ghost use Rattle.ep_scopes.specs.Known.{IsKnown, IsKnownEnv};
ghost use Rattle.ep_scopes.specs.View.{env as env_view};

use crate::arrays::arrays_of;
use crate::counts::bounds;
use crate::entries::Named;
use crate::fields::field_declared;
use ep_ast::{DeclaratorTree, Halt, MemberFieldTree, RefusalKind};
use ep_operands::{refused, size_of_type, with_stars};
use ep_scopes::{Env, type_number};
use ep_typing::CType;

// A member of a type that is there.
fn sized_member(env: &Env, line: u32, named: &mut Named, name: &[u8], c: CType) -> Result<(), Halt>
    requires { IsFalse (rule.is_declared name.now named.old) }
    ensures means { Adds
        (at line (rule.sized_member (env_view env.now) named.old name.now (c, (env_view env.now).types)))
        (named.new, env_view env.now) result }
    ensures named { OnOk result (named.new
        ≡ named.old ++ rule.a_member name.now (types_of.c_type_number (env_view env.now).types c) ∷ []) }
{
    match size_of_type(&env.types, c) {
        None => Err(refused(RefusalKind::IncompleteType, line)),
        Some(_) => {
            named.add_member(env.alloc, name, type_number(&env.types, c))?;
            Ok(())
        }
    }
}

#[tactic(auto, unfolding(ep_elaboration::specs::Aggregates::with_member))]
fn with_member(
    env: &mut Env,
    line: u32,
    named: &mut Named,
    name: &[u8],
    c: CType,
    counts: &[u32],
) -> Result<(), Halt>
    requires known { IsKnownEnv (env_view env.old) }
    requires inside { IsKnown (env_view env.old).types c }
    requires members { AreTypes (env_view env.old).types named.old }
    ensures means { Adds (at line (rule.with_member (env_view env.old) named.old name.now c counts.now))
        (named.new, env_view env.new) result }
    ensures after { OnOk result (Follows (env_view env.old) (env_view env.new)) }
    ensures members { OnOk result (AreTypes (env_view env.new).types named.new) }
    ensures comes { OnAnswer result (Comes (env_view env.old) (env_view env.new)) }
{
    if named.has(name) {
        return Err(refused(RefusalKind::Redeclared, line));
    }
    let array = arrays_of(&mut env.types, c, line, counts)?;
    sized_member(env, line, named, name, array)?;
    Ok(())
}

#[tactic(auto, unfolding(ep_elaboration::specs::Aggregates::member_declared))]
fn member_declared(
    env: &mut Env,
    named: &mut Named,
    c: CType,
    d: &DeclaratorTree,
) -> Result<(), Halt>
    requires known { IsKnownEnv (env_view env.old) }
    requires inside { IsKnown (env_view env.old).types c }
    requires members { AreTypes (env_view env.old).types named.old }
    ensures means { Adds (rule.member_declared (env_view env.old) named.old c (declarator d.now))
        (named.new, env_view env.new) result }
    ensures after { OnOk result (Follows (env_view env.old) (env_view env.new)) }
    ensures members { OnOk result (AreTypes (env_view env.new).types named.new) }
    ensures comes { OnAnswer result (Comes (env_view env.old) (env_view env.new)) }
{
    let counts = bounds(env, d.line, &d.bounds)?;
    let pointer = with_stars(c, d.stars.len())?;
    with_member(env, d.line, named, &d.name, pointer, &counts)?;
    Ok(())
}

#[tactic(auto, unfolding(ep_elaboration::specs::Aggregates::entry_declared))]
fn entry_declared(
    env: &mut Env,
    unclosed: &[u32],
    named: &mut Named,
    c: CType,
    tree: &MemberFieldTree,
) -> Result<(), Halt>
    requires known { IsKnownEnv (env_view env.old) }
    requires inside { IsKnown (env_view env.old).types c }
    requires members { AreTypes (env_view env.old).types named.old }
    ensures means { Adds (rule.entry_declared (env_view env.old) unclosed.now named.old c (member_field tree.now))
        (named.new, env_view env.new) result }
    ensures after { OnOk result (Follows (env_view env.old) (env_view env.new)) }
    ensures members { OnOk result (AreTypes (env_view env.new).types named.new) }
    ensures comes { OnAnswer result (Comes (env_view env.old) (env_view env.new)) }
{
    match tree {
        MemberFieldTree::Whole(d) => member_declared(env, named, c, d),
        MemberFieldTree::Bits(line, name, width) => {
            field_declared(env, unclosed, named, c, *line, name, width)
        }
    }
}

/// What a body declares by one type: members by their declarators, and bit-fields.
pub(crate) fn entries_declared(
    env: &mut Env,
    unclosed: &[u32],
    named: &mut Named,
    c: CType,
    list: &[MemberFieldTree],
) -> Result<(), Halt>
    requires known { IsKnownEnv (env_view env.old) }
    requires inside { IsKnown (env_view env.old).types c }
    requires members { AreTypes (env_view env.old).types named.old }
    ensures means { Adds
        (rule.entries_declared (env_view env.old) unclosed.now named.old c (map member_field list.now))
        (named.new, env_view env.new) result }
    ensures after { OnOk result (Follows (env_view env.old) (env_view env.new)) }
    ensures members { OnOk result (AreTypes (env_view env.new).types named.new) }
    ensures comes { OnAnswer result (Comes (env_view env.old) (env_view env.new)) }
{
    for tree in list {
        entry_declared(env, unclosed, named, c, tree)?;
    }
    Ok(())
}
