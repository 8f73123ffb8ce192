//! Bit-fields: which one an expression names.

ghost use Rattle.std.specs.Prelude.{◌≡◌, IfErr, IfOk, Result, is_some};
ghost use Rattle.std.specs.Option.{option_map};
ghost use Rattle.ep_ast.specs.Expression as source;
ghost use Rattle.ep_ast.specs.declared.refusals.Halt.TheVariants as halts;
ghost use Rattle.ep_ast.specs.declared.refusals.Refusal.{Refusal};
ghost use Rattle.ep_core.specs.View.{place_view};
ghost use Rattle.ep_typing.specs.Fields as rule;
ghost use Rattle.ep_typing.specs.Operand as operand;
ghost use Rattle.ep_typing.specs.Results.{at};
ghost use Rattle.ep_typing.specs.Typing as typing;
ghost use Rattle.ep_operands.specs.Refinement.{Refines};
ghost use Rattle.ep_operands.specs.View as view;
ghost use Rattle.ep_scopes.specs.View.{env as env_view};
ghost use Rattle.ep_typer_exprs.specs.Behind as behind;
ghost use Rattle.ep_typer_exprs.specs.View.{field_place};

use crate::nodes::valued;
use crate::walk::typed;
use ep_ast::{ExprTree, Halt, RefusalKind};
use ep_core::tree::Place;
use ep_layout::Types;
use ep_operands::{Operand, is_aggregate, number_of, refused};
use ep_places::{pointed, selected};
use ep_scopes::Env;
use ep_typing::FieldRow;

/// A bit-field, with the place of its unit.
#[derive(Debug, Drop)]
pub struct FieldPlace {
    pub unit: Place,
    pub row: FieldRow,
}

fn unit_offset(types: &Types, aggregate: u32, row: FieldRow) -> u32
    ensures { result ≡ rule.unit_offset types.now aggregate row }
{
    if aggregate < types.aggregate_count() {
        match types.members(aggregate).get(row.unit as usize) {
            Some(member) => member.offset,
            None => 0,
        }
    } else {
        0
    }
}

fn field_at(env: &Env, place: Place, aggregate: u32, row: FieldRow) -> Result<FieldPlace, Halt>
    ensures is { IfOk result (λ z. field_place z
        ≡ rule.field_at (env_view env.now).types (place_view place) aggregate row) }
    ensures wants { IfErr result (λ e. e ≡ halts.Memory) }
{
    let offset = unit_offset(&env.types, aggregate, row);
    let whole = Box::new(env.alloc, place)?;
    Ok(FieldPlace {
        unit: Place::Member(whole, offset),
        row,
    })
}

// The bit-field of a name in an object.
#[tactic(auto, unfolding(ep_typing::specs::Fields::field_in))]
fn field_in(env: &Env, x: Operand, name: &[u8]) -> Result<Option<FieldPlace>, Halt>
    ensures is { IfOk result (λ f. option_map field_place f
        ≡ rule.field_in (env_view env.now) (view.operand x) name.now) }
    ensures wants { IfErr result (λ e. e ≡ halts.Memory) }
{
    match x {
        Operand::Place(place, c) => {
            if !is_aggregate(c) {
                return Ok(None);
            }
            match env.fields.named(number_of(c), name) {
                None => Ok(None),
                Some(row) => Ok(Some(field_at(env, place, number_of(c), row)?)),
            }
        }
        Operand::Value(_) => Ok(None),
        Operand::Function(_) => Ok(None),
    }
}

#[tactic(auto, unfolding(ep_typing::specs::Fields::field_in))]
fn is_field(env: &Env, x: &Operand, name: &[u8]) -> bool
    ensures { result ≡ is_some (rule.field_in (env_view env.now) (view.operand x.now) name.now) }
{
    match x {
        Operand::Place(_, c) => is_aggregate(*c) && env.fields.named(number_of(*c), name).is_some(),
        Operand::Value(_) => false,
        Operand::Function(_) => false,
    }
}

/// `.`, of a member that is no bit-field.
#[tactic(auto, unfolding(ep_typing::specs::Fields::selected_in))]
pub(crate) fn selected_in(env: &Env, line: u32, x: Operand, name: &[u8]) -> Result<Operand, Halt>
    ensures { Refines view.operand (at line (rule.selected_in (env_view env.now) (view.operand x) name.now)) result }
{
    if is_field(env, &x, name) {
        return Err(refused(RefusalKind::BitFieldPlace, line));
    }
    selected(env.alloc, &env.types, line, x, name)
}

// The object that a pointer points to.
fn pointed_by(env: &Env, line: u32, x: Operand) -> Result<Operand, Halt>
    ensures { Refines view.operand (at line (rule.pointed_by (env_view env.now) (view.operand x))) result }
{
    let v = valued(env, line, x)?;
    pointed(env.alloc, line, v)
}

/// `->`.
#[tactic(auto, unfolding(ep_typing::specs::Fields::selected_behind))]
pub(crate) fn selected_behind(
    env: &Env,
    line: u32,
    x: Operand,
    name: &[u8],
) -> Result<Operand, Halt>
    ensures { Refines view.operand
        (at line (rule.selected_behind (env_view env.now) (view.operand x) name.now)) result }
{
    let whole = pointed_by(env, line, x)?;
    selected_in(env, line, whole, name)
}

// The object that an expression points to.
fn reached(env: &Env, line: u32, tree: &ExprTree) -> Result<Operand, Halt>
    ensures { Refines view.operand (behind.reached (env_view env.now) line (source.expr tree.now)) result }
{
    let x = typed(env, tree)?;
    pointed_by(env, line, x)
}

// The bit-field of a name in an object, if there is one.
fn found_in(
    env: &Env,
    whole: Result<Operand, Halt>,
    name: &[u8],
) -> Result<Option<FieldPlace>, Halt>
    ensures is { IfOk result (λ f. (stated : Result operand.Operand Refusal) → Refines view.operand stated whole
        → option_map field_place f ≡ rule.found_in stated (λ x. rule.field_in (env_view env.now) x name.now)) }
    ensures wants { IfErr result (λ e. e ≡ halts.Memory) }
{
    match whole {
        Ok(x) => field_in(env, x, name),
        Err(Halt::Memory) => Err(Halt::Memory),
        Err(Halt::Refused(_)) => Ok(None),
    }
}

/// The bit-field that an expression names, if it names one. What is wrong with the expression isn't told.
#[tactic(auto, unfolding(ep_typing::specs::Typing::field_of))]
pub fn field_of(env: &Env, tree: &ExprTree) -> Result<Option<FieldPlace>, Halt>
    ensures is { IfOk result (λ f. option_map field_place f
        ≡ typing.field_of (env_view env.now) (source.expr tree.now)) }
    ensures wants { IfErr result (λ e. e ≡ halts.Memory) }
{
    if env.fields.is_empty() {
        return Ok(None);
    }
    match tree {
        ExprTree::Member(_, a, name) => found_in(env, typed(env, a), name),
        ExprTree::Arrow(line, a, name) => found_in(env, reached(env, *line, a), name),
        _ => Ok(None),
    }
}
