//! Objects, each with a block of its own.

ghost use Rattle.std.specs.Prelude.{◌≡◌, ◌≤◌, ◌^◌, IfErr, IfOk, OnOk, IsFalse, length};
ghost use Rattle.ep_ast.specs.Declaration.{declarator};
ghost use Rattle.ep_layout.specs.Table.{Grows};
ghost use Rattle.ep_typing.specs.Results.{at};
ghost use Rattle.ep_elaboration.specs.Declarators as rule;
ghost use Rattle.ep_declared.specs.Refinement.{RefinesIn};
ghost use Rattle.ep_declared.specs.Open.{Follows, StaysOpen};
ghost use Rattle.ep_declared.specs.View as view;
ghost use Rattle.ep_scopes.specs.Known.{IsKnown, IsKnownEnv};
ghost use Rattle.ep_scopes.specs.View.{env as env_view};

use crate::arrays::arrays_of;
use crate::counts::object_bounds;
use crate::naming::{declare_name, is_taken};
use ep_ast::{DeclaratorTree, Halt, RefusalKind};
use ep_core::program::BlockInfo;
use ep_core::tree::Place;
use ep_int::Memory;
use ep_operands::{refused, size_of_type, with_stars};
use ep_scopes::{Env, Meaning, type_number};
use ep_typing::CType;

/// An object, or a part of one: its place, and how many bytes behind the start of which block it lies.
#[derive(Debug, Drop)]
pub struct Object {
    pub place: Place,
    pub block: u32,
    pub offset: u32,
    pub ty: CType,
}

// The number of the next block.
fn next_block(blocks: &[BlockInfo]) -> Result<u32, Memory>
    ensures number { IfOk result (λ b. b ≡ length blocks.now) }
    ensures full { IfErr result (λ _. 2 ^ 31 ≤ length blocks.now) }
{
    if blocks.len() >= 1 << 31 {
        return Err(Memory);
    }
    Ok(blocks.len() as u32)
}

// The next block.
fn add_block(env: &mut Env, size: u32, ty: u32, global: bool) -> Result<u32, Memory>
    ensures number { IfOk result (λ b. b ≡ length (env_view env.old).blocks) }
    ensures means { OnOk result (env_view env.new
        ≡ rule.with_block (env_view env.old) (record { size = size; ty = ty; global = global })) }
{
    let block = next_block(&env.blocks)?;
    match env.blocks.push(BlockInfo { size, ty, global }) {
        Ok(()) => Ok(block),
        Err(_) => Err(Memory),
    }
}

// A variable with a block of its own.
fn object_of(
    env: &mut Env,
    global: bool,
    name: &[u8],
    c: CType,
    size: u32,
) -> Result<Object, Memory>
    requires free { IsFalse (rule.is_taken name.now (env_view env.old).scopes) }
    requires known { IsKnownEnv (env_view env.old) }
    requires inside { IsKnown (env_view env.old).types c }
    ensures means { IfOk result (λ o. rule.object_of (env_view env.old) global name.now c size
        ≡ (view.object o, env_view env.new)) }
    ensures after { OnOk result (Follows (env_view env.old) (env_view env.new)) }
    ensures inside { IfOk result (λ o. IsKnown (env_view env.new).types o.ty) }
{
    let ty = type_number(&env.types, c);
    let block = add_block(env, size, ty, global)?;
    declare_name(env, name, Meaning::Variable(block, c))?;
    Ok(Object {
        place: Place::Block(block),
        block,
        offset: 0,
        ty: c,
    })
}

// An object of a type that is there.
#[tactic(auto, unfolding(ep_elaboration::specs::Declarators::sized_object))]
fn sized_object(
    env: &mut Env,
    line: u32,
    global: bool,
    name: &[u8],
    c: CType,
) -> Result<Object, Halt>
    requires free { IsFalse (rule.is_taken name.now (env_view env.old).scopes) }
    requires known { IsKnownEnv (env_view env.old) }
    requires inside { IsKnown (env_view env.old).types c }
    ensures means { RefinesIn view.object
        (at line (rule.sized_object (env_view env.old) global name.now (c, (env_view env.old).types)))
        (env_view env.new) result }
    ensures after { OnOk result (Follows (env_view env.old) (env_view env.new)) }
    ensures inside { IfOk result (λ o. IsKnown (env_view env.new).types o.ty) }
{
    match size_of_type(&env.types, c) {
        None => Err(refused(RefusalKind::IncompleteType, line)),
        Some(size) => {
            let object = object_of(env, global, name, c, size)?;
            Ok(object)
        }
    }
}

#[tactic(auto, unfolding(ep_elaboration::specs::Declarators::declared_object))]
fn declared_object(
    env: &mut Env,
    line: u32,
    global: bool,
    name: &[u8],
    c: CType,
    counts: &[u32],
) -> Result<Object, Halt>
    requires known { IsKnownEnv (env_view env.old) }
    requires inside { IsKnown (env_view env.old).types c }
    ensures means { RefinesIn view.object
        (at line (rule.declared_object (env_view env.old) global name.now c counts.now))
        (env_view env.new) result }
    ensures after { OnOk result (Follows (env_view env.old) (env_view env.new)) }
    ensures inside { IfOk result (λ o. IsKnown (env_view env.new).types o.ty) }
{
    if is_taken(env, name) {
        return Err(refused(RefusalKind::Redeclared, line));
    }
    let array = arrays_of(&mut env.types, c, line, counts)?;
    let object = sized_object(env, line, global, name, array)?;
    Ok(object)
}

/// An object by its declarator, the type of the words before it, and how many values a list gives it.
#[tactic(auto, unfolding(ep_elaboration::specs::Declarators::object_declared))]
pub fn object_declared(
    env: &mut Env,
    global: bool,
    listed: Option<usize>,
    c: CType,
    d: &DeclaratorTree,
) -> Result<Object, Halt>
    requires known { IsKnownEnv (env_view env.old) }
    requires inside { IsKnown (env_view env.old).types c }
    ensures means { RefinesIn view.object (rule.object_declared (env_view env.old) global listed c (declarator d.now))
        (env_view env.new) result }
    ensures known { OnOk result (IsKnownEnv (env_view env.new)) }
    ensures inside { IfOk result (λ o. IsKnown (env_view env.new).types o.ty) }
    ensures grown { OnOk result (Grows (env_view env.old).types (env_view env.new).types) }
    ensures stay { OnOk result (StaysOpen (env_view env.old).types (env_view env.new).types) }
{
    let counts = object_bounds(env, d.line, listed, &d.bounds)?;
    let pointer = with_stars(c, d.stars.len())?;
    let object = declared_object(env, d.line, global, &d.name, pointer, &counts)?;
    Ok(object)
}
