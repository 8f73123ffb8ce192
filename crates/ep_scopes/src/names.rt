//! What names stand for, and the types that type names mention.

ghost use Rattle.std.specs.Prelude.{◌≡◌, OnOk, map};
ghost use Rattle.ep_ast.specs.Expression.{type_name, type_word};
ghost use Rattle.ep_layout.specs.Table.{is_union};
ghost use Rattle.ep_typing.specs.Env.{entry, look_up, look_up_tag};
ghost use Rattle.ep_typing.specs.Names as rule;
ghost use Rattle.ep_typing.specs.Parts as parts;
ghost use Rattle.ep_typing.specs.Results.{at};
ghost use Rattle.ep_operands.specs.Refinement.{Refines};
ghost use Rattle.ep_operands.specs.View as operands;
ghost use Rattle.ep_scopes.specs.Known.{IsKnownEnv};
ghost use Rattle.ep_scopes.specs.View as view;

use crate::env::{Env, add_type};
use crate::scopes::Meaning;
use crate::words::{built_in_type, integer_of, whole_word};
use ep_ast::{Halt, RefusalKind, TypeNameTree, TypeWordTree};
use ep_core::tree::Place;
use ep_int::Memory;
use ep_operands::{Callee, Operand, built_in, refused, with_stars};
use ep_typing::{Base, CType};

/// What a name stands for.
#[tactic(auto, unfolding(ep_typing::specs::Parts::named))]
pub fn named(env: &Env, line: u32, name: &[u8]) -> Result<Operand, Halt>
    ensures { Refines operands.operand (at line (parts.named (view.env env.now) name.now)) result }
{
    match env.scopes.get(name) {
        Some(Meaning::Variable(block, c)) => Ok(Operand::Place(Place::Block(block), c)),
        Some(Meaning::Function(number)) => Ok(Operand::Function(Callee::Declared(number))),
        Some(Meaning::TypeName(_)) => Err(refused(RefusalKind::UnknownName, line)),
        None => match built_in(name) {
            Some(operand) => Ok(operand),
            None => Err(refused(RefusalKind::UnknownName, line)),
        },
    }
}

// The type of a typedef name.
fn meant_type(env: &Env, line: u32, name: &[u8]) -> Result<CType, Halt>
    ensures { Refines (λ c. c) (at line
        (rule.meant_type (look_up name.now (view.env env.now).scopes)
        (entry name.now (rule.built_in_types (view.env env.now).types.model)))) result }
{
    match env.scopes.get(name) {
        Some(Meaning::Variable(_, _)) => Err(refused(RefusalKind::UnknownName, line)),
        Some(Meaning::Function(_)) => Err(refused(RefusalKind::UnknownName, line)),
        Some(Meaning::TypeName(c)) => Ok(c),
        None => match built_in_type(env.types.model(), name) {
            Some(t) => Ok(CType {
                base: Base::Int(t),
                stars: 0,
            }),
            None => Err(refused(RefusalKind::UnknownName, line)),
        },
    }
}

fn is_union(env: &Env, aggregate: u32) -> bool
    ensures { result ≡ is_union (view.env env.now).types aggregate }
{
    if aggregate < env.types.aggregate_count() {
        env.types.is_union(aggregate)
    } else {
        false
    }
}

// The aggregate of a tag, which was declared with the same word.
fn meant_tag(env: &Env, line: u32, with_union: bool, tag: &[u8]) -> Result<CType, Halt>
    ensures { Refines (λ c. c) (at line
        (rule.meant_tag (view.env env.now) with_union (look_up_tag tag.now (view.env env.now).scopes))) result }
{
    match env.scopes.tag(tag) {
        Some(aggregate) => {
            if is_union(env, aggregate) == with_union {
                return Ok(CType {
                    base: Base::Aggregate(aggregate),
                    stars: 0,
                });
            }
            Err(refused(RefusalKind::Redeclared, line))
        }
        None => Err(refused(RefusalKind::UnknownName, line)),
    }
}

/// The type of words.
#[tactic(auto, unfolding(ep_typing::specs::Names::words_type))]
pub fn words_type(env: &Env, all: &[TypeWordTree]) -> Result<CType, Halt>
    ensures { Refines (λ c. c) (rule.words_type (view.env env.now) (map type_word all.now)) result }
{
    match whole_word(all) {
        None => Ok(CType {
            base: Base::Int(integer_of(env.types.model(), all)),
            stars: 0,
        }),
        Some(word) => match word {
            TypeWordTree::Word(_, _) => Ok(CType {
                base: Base::Void,
                stars: 0,
            }),
            TypeWordTree::Name(line, name) => meant_type(env, *line, name),
            TypeWordTree::Tag(line, word, tag) => { meant_tag(env, *line, word.is_union(), tag) }
        },
    }
}

/// The type of a type name.
#[tactic(auto, unfolding(ep_typing::specs::Names::named_type))]
pub fn named_type(env: &Env, name: &TypeNameTree) -> Result<CType, Halt>
    ensures { Refines (λ c. c) (rule.named_type (view.env env.now) (type_name name.now)) result }
{
    let c = words_type(env, &name.specs)?;
    let c = with_stars(c, name.stars.len())?;
    Ok(c)
}

// A tag that no scope has is declared where it is mentioned.
fn mention_word(env: &mut Env, word: &TypeWordTree) -> Result<(), Memory>
    ensures { OnOk result (view.env env.new ≡ rule.mentioned_word (view.env env.old) (type_word word.now)) }
{
    match word {
        TypeWordTree::Word(_, _) => Ok(()),
        TypeWordTree::Name(_, _) => Ok(()),
        TypeWordTree::Tag(_, own, tag) => {
            match env.scopes.tag(tag) {
                Some(_) => Ok(()),
                None => env.declare_tag(tag, own.is_union()),
            }
        }
    }
}

/// Words declare the tags that no scope has.
pub fn mention_words(env: &mut Env, all: &[TypeWordTree]) -> Result<(), Memory>
    ensures { OnOk result (view.env env.new ≡ rule.mentioned_words (view.env env.old) (map type_word all.now)) }
{
    for word in all {
        mention_word(env, word)?;
    }
    Ok(())
}

/// A type name declares its tags, and its type comes into the table.
#[tactic(auto, unfolding(ep_typing::specs::Names::mentioned_name))]
pub fn mention_name(env: &mut Env, name: &TypeNameTree) -> Result<(), Memory>
    requires { IsKnownEnv (view.env env.old) }
    ensures means { OnOk result (view.env env.new ≡ rule.mentioned_name (view.env env.old) (type_name name.now)) }
    ensures known { OnOk result (IsKnownEnv (view.env env.new)) }
{
    mention_words(env, &name.specs)?;
    match named_type(env, name) {
        Ok(c) => add_type(&mut env.types, c),
        Err(Halt::Refused(_)) => Ok(()),
        Err(Halt::Memory) => Err(Memory),
    }
}
