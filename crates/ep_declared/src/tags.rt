//! Structs and unions by their tags.

ghost use Rattle.std.specs.Prelude.{◌≡◌, ◌∷◌, None, length, IfOk, OnOk};
ghost use Rattle.std.specs.Option.{option_map};
ghost use Rattle.ep_ast.specs.Declaration.{text_of};
ghost use Rattle.ep_layout.specs.Table as table;
ghost use Rattle.ep_typing.specs.Env.{entry, with_tag};
ghost use Rattle.ep_typing.specs.Results.{at};
ghost use Rattle.ep_elaboration.specs.Aggregates as rule;
ghost use Rattle.ep_declared.specs.Refinement.{OnAnswer, RefinesIn};
ghost use Rattle.ep_declared.specs.Open.{Follows, IsOpened};
ghost use Rattle.ep_scopes.specs.Comes.{Comes};
ghost use Rattle.ep_scopes.specs.Known.{IsKnownEnv};
ghost use Rattle.ep_scopes.specs.View.{env as env_view};

use ep_ast::{Halt, RefusalKind};
use ep_int::Memory;
use ep_layout::Types;
use ep_operands::{has_room, refused};
use ep_scopes::Env;
use std::alloc::{AllocError, Global};

fn is_completed(types: &Types, aggregate: u32) -> bool
    ensures { result ≡ table.is_completed types.now aggregate }
{
    if aggregate < types.aggregate_count() {
        types.is_completed(aggregate)
    } else {
        false
    }
}

/// Whether an aggregate is a union; of a number that is none, no.
pub(crate) fn is_union(types: &Types, aggregate: u32) -> bool
    ensures { result ≡ table.is_union types.now aggregate }
{
    if aggregate < types.aggregate_count() {
        types.is_union(aggregate)
    } else {
        false
    }
}

fn has_body(env: &Env, unclosed: &[u32], with_union: bool, aggregate: u32) -> bool
    ensures { result ≡ rule.has_body (env_view env.now) unclosed.now with_union aggregate }
{
    unclosed.contains(&aggregate)
        | is_completed(&env.types, aggregate)
        | (is_union(&env.types, aggregate) != with_union)
}

// A struct or union without members takes the next number.
fn add_aggregate(
    types: &mut Types,
    alloc: Global,
    tag: &[u8],
    with_union: bool,
) -> Result<u32, Memory>
    ensures number { IfOk result (λ n. n ≡ length types.old.aggregates) }
    ensures grown { OnOk result (types.new ≡ table.declared types.old tag.now with_union) }
{
    has_room(types.aggregate_count())?;
    match Vec::from_slice(alloc, tag) {
        Ok(text) => types.declare(text, with_union),
        Err(_) => Err(Memory),
    }
}

// The aggregate of a tag of the innermost scope.
#[tactic(auto, using(crate::proofs::TagLemmas::here_is))]
fn tag_here(env: &Env, tag: &[u8]) -> Option<u32>
    ensures { result ≡ entry tag.now (rule.tags_here (env_view env.now).scopes) }
{
    env.scopes.tag_here(tag)
}

// A tag that the innermost scope doesn't have.
fn declare_tag(env: &mut Env, tag: &[u8], with_union: bool) -> Result<u32, Memory>
    requires { entry tag.now (rule.tags_here (env_view env.old).scopes) ≡ None }
    ensures number { IfOk result (λ n. n ≡ length (env_view env.old).types.aggregates) }
    ensures means { OnOk result (env_view env.new ≡ with_tag (env_view env.old) tag.now with_union) }
{
    let number = add_aggregate(&mut env.types, env.alloc, tag, with_union)?;
    match env.scopes.declare_tag(tag, number) {
        Ok(()) => Ok(number),
        Err(_) => Err(Memory),
    }
}

/// The aggregate of a body, by its tag, if it has one.
#[tactic(auto, unfolding(ep_elaboration::specs::Aggregates::opened))]
pub(crate) fn opened(
    env: &mut Env,
    line: u32,
    unclosed: &[u32],
    with_union: bool,
    tag: &Option<Vec<u8>>,
) -> Result<u32, Halt>
    requires { IsKnownEnv (env_view env.old) }
    ensures means { RefinesIn (λ a. a)
        (at line (rule.opened (env_view env.old) unclosed.now with_union (option_map text_of tag.now)))
        (env_view env.new) result }
    ensures after { OnOk result (Follows (env_view env.old) (env_view env.new)) }
    ensures opened { IfOk result (λ a.
        IsOpened unclosed.now with_union a (env_view env.old).types (env_view env.new).types) }
    ensures comes { OnAnswer result (Comes (env_view env.old) (env_view env.new)) }
{
    match tag {
        None => {
            let number = add_aggregate(&mut env.types, env.alloc, b"", with_union)?;
            Ok(number)
        }
        Some(tag) => match tag_here(env, tag) {
            None => {
                let number = declare_tag(env, tag, with_union)?;
                Ok(number)
            }
            Some(aggregate) => {
                if has_body(env, unclosed, with_union, aggregate) {
                    return Err(refused(RefusalKind::Redeclared, line));
                }
                Ok(aggregate)
            }
        },
    }
}

/// An aggregate before those that are open round it.
pub(crate) fn inside(
    alloc: Global,
    aggregate: u32,
    unclosed: &[u32],
) -> Result<Vec<u32>, AllocError>
    ensures { IfOk result (λ v. v.items ≡ aggregate ∷ unclosed.now) }
{
    let mut all = Vec::new(alloc);
    all.push(aggregate)?;
    all.extend_from_slice(unclosed)?;
    Ok(all)
}
