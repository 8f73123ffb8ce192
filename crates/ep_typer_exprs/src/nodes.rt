//! What a node does with its last operand.

ghost use Rattle.std.specs.Prelude.{◌≡◌};
ghost use Rattle.ep_ast.specs.Mark.{mark_number};
ghost use Rattle.ep_typing.specs.Operand.{value_of};
ghost use Rattle.ep_typing.specs.Parts.{an_operand};
ghost use Rattle.ep_typing.specs.Parts as parts;
ghost use Rattle.ep_typing.specs.Results.{at};
ghost use Rattle.ep_typing.specs.Typing as rule;
ghost use Rattle.ep_operands.specs.Refinement.{Refines};
ghost use Rattle.ep_operands.specs.View as view;
ghost use Rattle.ep_scopes.specs.View.{env as env_view};

use ep_ast::{Halt, Mark, RefusalKind};
use ep_comparisons::chosen;
use ep_operands::{Operand, Value, refused, value_of};
use ep_operators::operated;
use ep_places::{casted, indexed, is_mark, sized, type_sized};
use ep_scopes::{Env, named};
use ep_typing::CType;

/// The value of an operand.
pub(crate) fn valued(env: &Env, line: u32, x: Operand) -> Result<Value, Halt>
    ensures { Refines view.value (at line (value_of (env_view env.now).types (view.operand x))) result }
{
    value_of(env.alloc, &env.types, line, x)
}

// What isn't called, which is no function.
fn uncalled(line: u32, x: Operand) -> Result<Operand, Halt>
    ensures { Refines view.operand (at line (parts.uncalled (view.operand x))) result }
{
    match x {
        Operand::Place(place, c) => Ok(Operand::Place(place, c)),
        Operand::Value(v) => Ok(Operand::Value(v)),
        Operand::Function(_) => Err(refused(RefusalKind::TypeMismatch, line)),
    }
}

/// What a name stands for that isn't called.
#[tactic(auto, unfolding(ep_typing::specs::Parts::named_uncalled))]
pub(crate) fn named_uncalled(env: &Env, line: u32, name: &[u8]) -> Result<Operand, Halt>
    ensures { Refines view.operand (at line (parts.named_uncalled (env_view env.now) name.now)) result }
{
    let x = named(env, line, name)?;
    uncalled(line, x)
}

/// What a left side is asked before the right one is looked at: a value, but of `=` nothing.
#[tactic(auto, unfolding(ep_typing::specs::Typing::read_first))]
pub(crate) fn read_first(env: &Env, line: u32, mark: Mark, x: Operand) -> Result<Operand, Halt>
    ensures { Refines view.operand (at line
        (rule.read_first (env_view env.now).types (mark_number mark) (view.operand x))) result }
{
    if is_mark(mark, Mark::Equal) {
        return Ok(x);
    }
    let v = valued(env, line, x)?;
    Ok(Operand::Value(v))
}

/// An operator of two operands.
#[tactic(auto, unfolding(ep_typing::specs::Typing::joined))]
pub(crate) fn joined(
    env: &Env,
    line: u32,
    mark: Mark,
    left: Value,
    right: Operand,
) -> Result<Operand, Halt>
    ensures { Refines view.operand
        (at line (rule.joined (env_view env.now).types (mark_number mark) (view.value left)
        (view.operand right))) result }
{
    let v = valued(env, line, right)?;
    let w = operated(env.alloc, &env.types, line, mark, left, v)?;
    Ok(Operand::Value(w))
}

/// `? :`.
#[tactic(auto, unfolding(ep_typing::specs::Typing::chosen_from))]
pub(crate) fn chosen_from(
    env: &Env,
    line: u32,
    test: Value,
    yes: Value,
    no: Operand,
) -> Result<Operand, Halt>
    ensures { Refines view.operand
        (at line (rule.chosen_from (env_view env.now).types (view.value test) (view.value yes)
        (view.operand no))) result }
{
    let v = valued(env, line, no)?;
    let w = chosen(env.alloc, line, test, yes, v)?;
    Ok(Operand::Value(w))
}

/// A cast.
#[tactic(auto, unfolding(ep_typing::specs::Typing::cast_to))]
pub(crate) fn cast_to(env: &Env, line: u32, c: CType, x: Operand) -> Result<Operand, Halt>
    ensures { Refines view.operand (at line (rule.cast_to (env_view env.now).types c (view.operand x))) result }
{
    let v = valued(env, line, x)?;
    let w = casted(env.alloc, line, c, v)?;
    Ok(Operand::Value(w))
}

/// An element.
#[tactic(auto, unfolding(ep_typing::specs::Typing::indexed_by))]
pub(crate) fn indexed_by(env: &Env, line: u32, x: Operand, index: Operand) -> Result<Operand, Halt>
    ensures { Refines view.operand
        (at line (rule.indexed_by (env_view env.now).types (view.operand x) (view.operand index))) result }
{
    let v = valued(env, line, index)?;
    indexed(env.alloc, &env.types, line, x, v)
}

/// `sizeof` of an operand.
pub(crate) fn size_of(env: &Env, line: u32, x: Operand) -> Result<Operand, Halt>
    ensures { Refines view.operand
        (at line (an_operand (parts.sized (env_view env.now).types (view.operand x)))) result }
{
    let v = sized(&env.types, line, x)?;
    Ok(Operand::Value(v))
}

/// `sizeof` of a type.
pub(crate) fn size_of_type(env: &Env, line: u32, c: CType) -> Result<Operand, Halt>
    ensures { Refines view.operand (at line (an_operand (parts.type_sized (env_view env.now).types c))) result }
{
    let v = type_sized(&env.types, line, c)?;
    Ok(Operand::Value(v))
}
