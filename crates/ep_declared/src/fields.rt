//! Bit-fields of a body that is open.

ghost use Rattle.std.specs.Prelude.{◌≡◌, IsTrue, OnOk};
ghost use Rattle.std.specs.Option.{option_map};
ghost use Rattle.ep_ast.specs.Declaration.{text_of};
ghost use Rattle.ep_ast.specs.Expression as source;
ghost use Rattle.ep_bitfield.specs.Units.{is_entry};
ghost use Rattle.ep_typing.specs.Operand as operand;
ghost use Rattle.ep_typing.specs.Results.{at};
ghost use Rattle.ep_typing.specs.Types as types_of;
ghost use Rattle.ep_elaboration.specs.Aggregates as rule;
ghost use Rattle.ep_operands.specs.View as operands;
ghost use Rattle.ep_declared.specs.Refinement.{Adds, OnAnswer};
ghost use Rattle.ep_declared.specs.Open.{AreTypes, Follows};
ghost use Rattle.ep_scopes.specs.Comes.{Comes};
ghost use Rattle.ep_scopes.specs.Known.{IsKnown, IsKnownEnv};
ghost use Rattle.ep_scopes.specs.View.{env as env_view};

use crate::entries::Named;
use crate::tags::is_union;
use crate::widths::width_of;
use ep_ast::{ExprTree, Halt, RefusalKind};
use ep_bitfield::is_unit_type;
use ep_operands::{Operand, int_of, is_integer, refused};
use ep_scopes::{Env, add_type, type_number};
use ep_typer_exprs::{mention, typed_alone};
use ep_typing::CType;

fn is_field_type(c: CType) -> bool
    ensures { result ≡ rule.is_field_type c }
{
    is_integer(c) & is_unit_type(int_of(c))
}

fn in_union(env: &Env, unclosed: &[u32]) -> bool
    ensures { result ≡ rule.in_union (env_view env.now) unclosed.now }
{
    match unclosed.first() {
        None => false,
        Some(aggregate) => is_union(&env.types, *aggregate),
    }
}

fn is_taken_name(named: &Named, name: &Option<Vec<u8>>) -> bool
    ensures { result ≡ rule.is_taken_name (option_map text_of name.now) named.now }
{
    match name {
        None => false,
        Some(name) => named.has(name),
    }
}

// A bit-field of a type and a width that it may have.
fn field_added(
    env: &mut Env,
    line: u32,
    named: &mut Named,
    c: CType,
    name: &Option<Vec<u8>>,
    width: u32,
) -> Result<(), Halt>
    requires known { IsKnownEnv (env_view env.old) }
    requires inside { IsKnown (env_view env.old).types c }
    requires members { AreTypes (env_view env.old).types named.old }
    requires fits { IsTrue (is_entry (types_of.int_of c, width)) }
    ensures means { Adds
        (at line (rule.field_added (env_view env.old) named.old c (option_map text_of name.now) width))
        (named.new, env_view env.new) result }
    ensures after { OnOk result (Follows (env_view env.old) (env_view env.new)) }
    ensures members { OnOk result (AreTypes (env_view env.new).types named.new) }
    ensures comes { OnAnswer result (Comes (env_view env.old) (env_view env.new)) }
{
    if is_taken_name(named, name) {
        return Err(refused(RefusalKind::Redeclared, line));
    }
    add_type(&mut env.types, c)?;
    let number = type_number(&env.types, c);
    named.add_field(env.alloc, name, number, int_of(c), width)?;
    Ok(())
}

// A bit-field whose width is an operand.
#[tactic(auto, unfolding(ep_elaboration::specs::Aggregates::with_field))]
fn with_field(
    env: &mut Env,
    line: u32,
    with_union: bool,
    named: &mut Named,
    c: CType,
    name: &Option<Vec<u8>>,
    x: Operand,
) -> Result<(), Halt>
    requires known { IsKnownEnv (env_view env.old) }
    requires inside { IsKnown (env_view env.old).types c }
    requires members { AreTypes (env_view env.old).types named.old }
    ensures means { Adds
        (at line (rule.with_field (env_view env.old) with_union named.old c (option_map text_of name.now)
        (operand.value_of (env_view env.old).types (operands.operand x))))
        (named.new, env_view env.new) result }
    ensures after { OnOk result (Follows (env_view env.old) (env_view env.new)) }
    ensures members { OnOk result (AreTypes (env_view env.new).types named.new) }
    ensures comes { OnAnswer result (Comes (env_view env.old) (env_view env.new)) }
{
    if with_union | !is_field_type(c) {
        return Err(refused(RefusalKind::BitField, line));
    }
    let width = width_of(env, line, int_of(c), name.is_some(), x)?;
    field_added(env, line, named, c, name, width)?;
    Ok(())
}

/// A bit-field by its type, perhaps its name, and the expression of its width. The line is that of the name, or of the
/// `:` where it has none.
#[tactic(auto, unfolding(ep_elaboration::specs::Aggregates::field_declared))]
pub(crate) fn field_declared(
    env: &mut Env,
    unclosed: &[u32],
    named: &mut Named,
    c: CType,
    line: u32,
    name: &Option<Vec<u8>>,
    width: &ExprTree,
) -> Result<(), Halt>
    requires known { IsKnownEnv (env_view env.old) }
    requires inside { IsKnown (env_view env.old).types c }
    requires members { AreTypes (env_view env.old).types named.old }
    ensures means { Adds (rule.field_declared (env_view env.old) unclosed.now named.old c line
        (option_map text_of name.now) (source.expr width.now)) (named.new, env_view env.new) result }
    ensures after { OnOk result (Follows (env_view env.old) (env_view env.new)) }
    ensures members { OnOk result (AreTypes (env_view env.new).types named.new) }
    ensures comes { OnAnswer result (Comes (env_view env.old) (env_view env.new)) }
{
    let with_union = in_union(env, unclosed);
    mention(env, width)?;
    let x = typed_alone(env, line, width)?;
    with_field(env, line, with_union, named, c, name, x)?;
    Ok(())
}
