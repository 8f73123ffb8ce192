//! Whole assignments with a bit-field on one side, and objects that begin as one.

ghost use Rattle.std.specs.Prelude.{◌≡◌, IfErr, IfOk, IsTrue, None, false};
ghost use Rattle.ep_ast.specs.Expression as source;
ghost use Rattle.ep_core.specs.View.{what_view};
ghost use Rattle.ep_bitfield.specs.Bits as bits_of_fields;
ghost use Rattle.ep_elaboration.specs.FieldStatements as rule;
ghost use Rattle.ep_typing.specs.Results.{at};
ghost use Rattle.ep_typing.specs.Typing as typing;
ghost use Rattle.ep_operands.specs.Refinement.{Refines};
ghost use Rattle.ep_operands.specs.View as view;
ghost use Rattle.ep_scopes.specs.View.{env as env_view};
ghost use Rattle.ep_typer_exprs.specs.View.{field_place};
ghost use Rattle.ep_field_statements.specs.Refinement.{RefinesIf};
ghost use Rattle.ep_field_statements.specs.Sides.{read_into, written_from};

use ep_ast::{ExprTree, Halt, Mark, RefusalKind};
use ep_bitfield::{Field, get, is_field, set};
use ep_core::tree::What;
use ep_int::Memory;
use ep_layout::Types;
use ep_operands::{Operand, copy_expr, fitted, int_type, refused, value_of};
use ep_places::is_mark;
use ep_scopes::Env;
use ep_stores::taken;
use ep_typer_exprs::{FieldPlace, field_of, typed};
use ep_typing::FieldRow;
use std::alloc::Global;

// A row of an environment is a field, since a closed body makes no other; of any other memory is said to be wanting.
fn part_of_unit(row: FieldRow) -> Result<Field, Memory>
    ensures is { IfOk result (λ f. f ≡ rule.part_of_unit row) }
    ensures fits { IfOk result (λ f. IsTrue (bits_of_fields.is_field f)) }
    ensures err { IfErr result (λ e. bits_of_fields.is_field (rule.part_of_unit row) ≡ false) }
{
    let field = Field {
        t: row.t,
        used: row.used,
        width: row.width,
    };
    if is_field(field) {
        return Ok(field);
    }
    Err(Memory)
}

#[tactic(auto, unfolding(ep_elaboration::specs::FieldStatements::field_read))]
fn field_read(alloc: Global, line: u32, node: u32, z: FieldPlace, x: Operand) -> Result<What, Halt>
    ensures { Refines what_view (at node (rule.field_read line (field_place z) (view.operand x))) result }
{
    let to = taken(alloc, node, x, int_type(z.row.t))?;
    let field = part_of_unit(z.row)?;
    let statement = get(alloc, line, z.unit, field, to)?;
    Ok(statement.what)
}

#[tactic(auto, unfolding(ep_elaboration::specs::FieldStatements::field_written))]
fn field_written(
    alloc: Global,
    types: &Types,
    line: u32,
    node: u32,
    z: FieldPlace,
    y: Operand,
) -> Result<What, Halt>
    ensures { Refines what_view
        (at node (rule.field_written types.now line (field_place z) (view.operand y))) result }
{
    let v = value_of(alloc, types, node, y)?;
    let value = copy_expr(alloc, &v.expr)?;
    fitted(alloc, node, int_type(z.row.t), v)?;
    let field = part_of_unit(z.row)?;
    let statement = set(alloc, line, z.unit, field, value)?;
    Ok(statement.what)
}

// The right side's value goes into a bit-field.
fn written_from(
    env: &Env,
    line: u32,
    node: u32,
    z: FieldPlace,
    right: &ExprTree,
) -> Result<What, Halt>
    ensures { Refines what_view
        (written_from (env_view env.now) line node (field_place z) (source.expr right.now)) result }
{
    let y = typed(env, right)?;
    field_written(env.alloc, &env.types, line, node, z, y)
}

// A bit-field goes into the object on the left.
fn read_into(env: &Env, line: u32, node: u32, left: &ExprTree, z: FieldPlace) -> Result<What, Halt>
    ensures { Refines what_view
        (read_into (env_view env.now) line node (source.expr left.now) (field_place z)) result }
{
    let x = typed(env, left)?;
    field_read(env.alloc, line, node, z, x)
}

// An assignment whose left side is no bit-field.
fn read_if(
    env: &Env,
    line: u32,
    node: u32,
    left: &ExprTree,
    right: &ExprTree,
) -> Result<Option<What>, Halt>
    ensures { RefinesIf what_view (rule.sides (env_view env.now) line node (source.expr left.now)
        (source.expr right.now) None (typing.field_of (env_view env.now) (source.expr right.now))) result }
{
    match field_of(env, right)? {
        Some(z) => {
            let what = read_into(env, line, node, left, z)?;
            Ok(Some(what))
        }
        None => Ok(None),
    }
}

// An assignment; the left side is asked first.
fn sides(
    env: &Env,
    line: u32,
    node: u32,
    left: &ExprTree,
    right: &ExprTree,
) -> Result<Option<What>, Halt>
    ensures { RefinesIf what_view (rule.sides (env_view env.now) line node (source.expr left.now)
        (source.expr right.now) (typing.field_of (env_view env.now) (source.expr left.now))
        (typing.field_of (env_view env.now) (source.expr right.now))) result }
{
    match field_of(env, left)? {
        Some(z) => {
            let what = written_from(env, line, node, z, right)?;
            Ok(Some(what))
        }
        None => read_if(env, line, node, left, right),
    }
}

/// A whole `=` with a bit-field on one side, if it is one, as a statement of this line.
#[tactic(auto, unfolding(ep_elaboration::specs::FieldStatements::field_statement))]
pub fn field_statement(env: &Env, line: u32, tree: &ExprTree) -> Result<Option<What>, Halt>
    ensures { RefinesIf what_view (rule.field_statement (env_view env.now) line (source.expr tree.now)) result }
{
    match tree {
        ExprTree::Assign(node, mark, left, right) => {
            if is_mark(*mark, Mark::Equal) {
                return sides(env, line, *node, left, right);
            }
            Ok(None)
        }
        _ => Ok(None),
    }
}

/// An object that begins as a bit-field, on the line of its name.
#[tactic(auto, unfolding(ep_elaboration::specs::FieldStatements::field_given))]
pub fn field_given(
    alloc: Global,
    global: bool,
    line: u32,
    z: FieldPlace,
    x: Operand,
) -> Result<What, Halt>
    ensures { Refines what_view (at line (rule.field_given global line (field_place z) (view.operand x))) result }
{
    let what = field_read(alloc, line, line, z, x)?;
    if global {
        return Err(refused(RefusalKind::NotConstant, line));
    }
    Ok(what)
}
