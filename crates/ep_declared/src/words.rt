//! Type words without a body.

ghost use Rattle.std.specs.Prelude.{◌≡◌, map, IfOk, OnOk};
ghost use Rattle.ep_ast.specs.Expression.{type_word};
ghost use Rattle.ep_layout.specs.Table.{Grows};
ghost use Rattle.ep_elaboration.specs.Aggregates as rule;
ghost use Rattle.ep_declared.specs.Refinement.{OnAnswer, RefinesIn};
ghost use Rattle.ep_declared.specs.Open.{StaysOpen};
ghost use Rattle.ep_scopes.specs.Comes.{Comes};
ghost use Rattle.ep_scopes.specs.Known.{IsKnown, IsKnownEnv};
ghost use Rattle.ep_scopes.specs.View.{env as env_view};

use ep_ast::{Halt, TypeWordTree};
use ep_scopes::{Env, add_type, mention_words, words_type};
use ep_typing::CType;
use std::alloc::{AllocError, Global};

/// The same word once more.
pub fn copy_word(alloc: Global, word: &TypeWordTree) -> Result<TypeWordTree, AllocError>
    ensures { IfOk result (λ w. type_word w ≡ type_word word.now) }
{
    match word {
        TypeWordTree::Word(line, own) => Ok(TypeWordTree::Word(*line, *own)),
        TypeWordTree::Name(line, name) => {
            let name = Vec::from_slice(alloc, name)?;
            Ok(TypeWordTree::Name(*line, name))
        }
        TypeWordTree::Tag(line, own, tag) => {
            let tag = Vec::from_slice(alloc, tag)?;
            Ok(TypeWordTree::Tag(*line, *own, tag))
        }
    }
}

/// The type of words without a body, and what they declare.
#[tactic(auto, unfolding(ep_elaboration::specs::Aggregates::words_declared))]
pub fn words_declared(env: &mut Env, words: &[TypeWordTree]) -> Result<CType, Halt>
    requires { IsKnownEnv (env_view env.old) }
    ensures means { RefinesIn (λ c. c) (rule.words_declared (env_view env.old) (map type_word words.now))
        (env_view env.new) result }
    ensures known { OnOk result (IsKnownEnv (env_view env.new)) }
    ensures inside { IfOk result (λ c. IsKnown (env_view env.new).types c) }
    ensures grown { OnOk result (Grows (env_view env.old).types (env_view env.new).types) }
    ensures stay { OnOk result (StaysOpen (env_view env.old).types (env_view env.new).types) }
    ensures comes { OnAnswer result (Comes (env_view env.old) (env_view env.new)) }
{
    mention_words(env, words)?;
    let c = words_type(env, words)?;
    add_type(&mut env.types, c)?;
    Ok(c)
}
