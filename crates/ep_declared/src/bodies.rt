//! Type words with the bodies of structs and unions.

ghost use Rattle.std.specs.Prelude.{[], map, IfOk, OnOk};
ghost use Rattle.std.specs.Option.{option_map};
ghost use Rattle.ep_ast.specs.Declaration.{aggregate, aggregate_of, member_of, spec_of, text_of, to_members, to_specs};
ghost use Rattle.ep_ast.specs.Mark.{word_number};
ghost use Rattle.ep_layout.specs.Table.{Grows};
ghost use Rattle.ep_elaboration.specs.Aggregates as rule;
ghost use Rattle.ep_declared.specs.Refinement.{OnAnswer, RefinesIn};
ghost use Rattle.ep_declared.specs.Open.{AreTypes, IsAfter};
ghost use Rattle.ep_scopes.specs.Comes.{Comes};
ghost use Rattle.ep_scopes.specs.Known.{IsKnown, IsKnownEnv};
ghost use Rattle.ep_scopes.specs.View.{env as env_view};

use crate::closing::closed;
use crate::entries::Named;
use crate::members::entries_declared;
use crate::tags::{inside, opened};
use crate::words::{copy_word, words_declared};
use ep_ast::{AggregateTree, Halt, MemberTree, SpecTree, Word};
use ep_scopes::Env;
use ep_typing::CType;

// The type of words inside bodies that aren't closed.
#[cycle(bodies)]
#[tactic(auto, unfolding(ep_elaboration::specs::Aggregates::specs_declared))]
fn specs_inside(env: &mut Env, unclosed: &[u32], specs: &[SpecTree]) -> Result<CType, Halt>
    requires { IsKnownEnv (env_view env.old) }
    ensures means { RefinesIn (λ c. c) (rule.specs_declared (env_view env.old) unclosed.now []
        (to_specs (map spec_of specs.now))) (env_view env.new) result }
    ensures after { OnOk result (IsAfter unclosed.now (env_view env.old) (env_view env.new)) }
    ensures inside { IfOk result (λ c. IsKnown (env_view env.new).types c) }
    ensures comes { OnAnswer result (Comes (env_view env.old) (env_view env.new)) }
{
    let mut before = Vec::new(env.alloc);
    for spec in specs {
        match spec {
            SpecTree::Plain(word) => {
                let word = copy_word(env.alloc, word)?;
                before.push(word)?;
            }
            SpecTree::Body(line, word, tag, members) => {
                return body_inside(env, unclosed, *line, *word, tag, members);
            }
        }
    }
    words_declared(env, &before)
}

// A body inside others.
#[cycle(bodies)]
#[tactic(auto, unfolding(ep_elaboration::specs::Aggregates::body_declared))]
fn body_inside(
    env: &mut Env,
    unclosed: &[u32],
    line: u32,
    word: Word,
    tag: &Option<Vec<u8>>,
    members: &[MemberTree],
) -> Result<CType, Halt>
    requires { IsKnownEnv (env_view env.old) }
    ensures means { RefinesIn (λ c. c) (rule.body_declared (env_view env.old) unclosed.now
        (aggregate line (word_number word) (option_map text_of tag.now) (to_members (map member_of members.now))))
        (env_view env.new) result }
    ensures after { OnOk result (IsAfter unclosed.now (env_view env.old) (env_view env.new)) }
    ensures inside { IfOk result (λ c. IsKnown (env_view env.new).types c) }
    ensures comes { OnAnswer result (Comes (env_view env.old) (env_view env.new)) }
{
    let number = opened(env, line, unclosed, word.is_union(), tag)?;
    let inner = inside(env.alloc, number, unclosed)?;
    let named = all_members(env, &inner, members)?;
    let c = closed(env, line, number, &named)?;
    Ok(c)
}

#[cycle(bodies)]
#[tactic(auto, unfolding(ep_elaboration::specs::Aggregates::all_members))]
fn all_members(env: &mut Env, unclosed: &[u32], members: &[MemberTree]) -> Result<Named, Halt>
    requires { IsKnownEnv (env_view env.old) }
    ensures means { RefinesIn (λ n. n) (rule.all_members (env_view env.old) unclosed.now []
        (to_members (map member_of members.now))) (env_view env.new) result }
    ensures after { OnOk result (IsAfter unclosed.now (env_view env.old) (env_view env.new)) }
    ensures members { IfOk result (λ n. AreTypes (env_view env.new).types n) }
    ensures comes { OnAnswer result (Comes (env_view env.old) (env_view env.new)) }
{
    let mut named = Named::new(env.alloc);
    for member in members {
        let c = specs_inside(env, unclosed, &member.specs)?;
        entries_declared(env, unclosed, &mut named, c, &member.fields)?;
    }
    Ok(named)
}

/// The type of the words that begin a declaration, and what they declare.
pub fn specs_declared(env: &mut Env, specs: &[SpecTree]) -> Result<CType, Halt>
    requires { IsKnownEnv (env_view env.old) }
    ensures means { RefinesIn (λ c. c) (rule.specs_declared (env_view env.old) [] [] (to_specs (map spec_of specs.now)))
        (env_view env.new) result }
    ensures known { OnOk result (IsKnownEnv (env_view env.new)) }
    ensures inside { IfOk result (λ c. IsKnown (env_view env.new).types c) }
    ensures grown { OnOk result (Grows (env_view env.old).types (env_view env.new).types) }
    ensures comes { OnAnswer result (Comes (env_view env.old) (env_view env.new)) }
{
    let c = specs_inside(env, &[], specs)?;
    Ok(c)
}

/// A struct or union with its body, as an item of its own.
pub fn body_declared(env: &mut Env, aggregate: &AggregateTree) -> Result<CType, Halt>
    requires { IsKnownEnv (env_view env.old) }
    ensures means { RefinesIn (λ c. c) (rule.body_declared (env_view env.old) [] (aggregate_of aggregate.now))
        (env_view env.new) result }
    ensures known { OnOk result (IsKnownEnv (env_view env.new)) }
    ensures inside { IfOk result (λ c. IsKnown (env_view env.new).types c) }
    ensures grown { OnOk result (Grows (env_view env.old).types (env_view env.new).types) }
{
    let c = body_inside(
        env,
        &[],
        aggregate.line,
        aggregate.word,
        &aggregate.tag,
        &aggregate.members,
    )?;
    Ok(c)
}
