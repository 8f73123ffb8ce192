//! Reading the words that begin a declaration.

ghost use Rattle.std.specs.Prelude.{◌≡◌, ◌<◌, ◌^◌, ◌++◌, ◌∷◌, [], length, map, IfOk, List, true};
ghost use Rattle.ep_ast.specs.Declaration.{Spec, spec_of, member_of};
ghost use Rattle.ep_ast.specs.TypeWords.{fits};
ghost use Rattle.ep_ast.specs.DeclarationGrammar.{Specified, Members, OneMember};
ghost use Rattle.ep_ast.specs.Depth.{in_spec, in_member};
ghost use Rattle.ep_lexer.specs.Tokens.{view};
ghost use Rattle.ep_reading.specs.Names.{is_type};
ghost use Rattle.ep_reading.specs.Answer.{Parses, IsPast};
ghost use Rattle.ep_reading.specs.Measured.{Shows};
ghost use Rattle.ep_type_names.specs.Words.{bag};
ghost use Rattle.ep_declarations.specs.Answer as answers;
ghost use Rattle.ep_declarations.specs.Answer.{ShowsSpecs, ShowsMembers, TakesBody, AsAggregate};
ghost use Rattle.ep_declarations.specs.SpecAhead.{Ahead, ShowsMember, ShowsAhead, IsPastWord, are_none};

use crate::aggregates::{at_body, make_body, make_member, owned_tag};
use crate::fields::member_fields;
use crate::words::{OneMore, plain_word};
use ep_ast::{AggregateTree, Halt, Mark, MemberTree, SpecTree};
use ep_lexer::Token;
use ep_reading::{Measured, Part, Reader, at_mark};
use ep_type_names::TypeBag;
use std::alloc::{AllocError, Global};

/// Where a declaration stands. Members in braces stand in all but a block, `static` and `inline` at file scope alone.
#[derive(Clone, Copy, Debug, PartialEq, Eq)]
pub enum Context {
    FileScope,
    Typedef,
    Aggregate,
    Block,
}

/// The words that begin a declaration, where nothing in them is too deep, and whether they are one `struct` or `union`
/// with its members and nothing else.
#[derive(Debug, Drop)]
pub struct SpecList {
    pub tree: Measured<Vec<SpecTree>>,
    pub alone: bool,
}

impl SpecList {
    fn new(alloc: Global) -> Result<SpecList, AllocError>
        ensures { IfOk result (λ l. ShowsSpecs l []) }
    {
        Ok(SpecList {
            tree: Measured::Fits(Vec::with_capacity(alloc, 1)?),
            alone: false,
        })
    }

    /// With one word more, the first of all or not.
    fn with(
        self,
        is_first: bool,
        one: Measured<SpecTree>,
        is_body: bool,
    ) -> Result<SpecList, AllocError>
        ensures { (ss : List Spec) → (s : Spec) → ShowsSpecs self ss → is_first ≡ are_none ss
            → Shows spec_of in_spec one s → is_body ≡ answers.is_body s
            → IfOk result (λ l. ShowsSpecs l (ss ++ s ∷ [])) }
    {
        let alone = is_first && is_body;
        let tree = self.tree.longer(one)?;
        Ok(SpecList { tree, alone })
    }
}

/// The `struct` or `union` of this word, where it has its members.
fn as_aggregate(word: SpecTree) -> Option<AggregateTree>
    ensures { AsAggregate result (spec_of word) }
{
    match word {
        SpecTree::Body(line, word, tag, members) => Some(AggregateTree {
            line,
            word,
            tag,
            members,
        }),
        SpecTree::Plain(_) => None,
    }
}

/// The words of a type that begin a declaration, all that stand here.
#[cycle(specs)]
pub fn spec_list<'a>(
    reader: &Reader<'_>,
    context: Context,
    tokens: &'a [Token<'a>],
) -> Result<Part<'a, SpecList>, Halt>
    requires { length tokens.now < 2 ^ 24 }
    ensures reads { Parses ShowsSpecs (Specified (is_type reader.now.names.now) (answers.context context))
        (map view tokens.now) result }
    ensures shorter { IfOk result (IsPast (length tokens.now)) }
{
    let mut found = SpecList::new(reader.alloc)?;
    let mut bag = TypeBag::new();
    // The variable has a lifetime of its own.
    let mut rest = (tokens,).0;
    let mut is_first = true;
    'words: loop {
        let next = next_word(reader, context, &bag, rest)?;
        let after = next.rest;
        let word = next.value;
        let Some(one) = word else {
            if bag.is_empty() {
                return Err(Halt::Refused(reader.stopped(rest)));
            }
            return Ok(Part { value: found, rest });
        };
        bag = one.bag;
        found = found.with(is_first, one.tree, one.is_body)?;
        is_first = false;
        rest = after;
    }
}

/// The next word, or a `struct` or `union` with its members.
#[cycle(specs)]
fn next_word<'a>(
    reader: &Reader<'_>,
    context: Context,
    words: &TypeBag,
    tokens: &'a [Token<'a>],
) -> Result<Part<'a, Option<OneMore>>, Halt>
    requires few { length tokens.now < 2 ^ 24 }
    requires fit { fits (bag words.now) ≡ true }
    ensures reads { Parses (ShowsAhead (bag words.now))
        (Ahead (is_type reader.now.names.now) (answers.context context) (bag words.now)) (map view tokens.now) result }
    ensures shorter { IfOk result (IsPastWord (length tokens.now)) }
{
    let Some(opening) = at_body(tokens) else {
        return plain_word(reader, context, words, tokens);
    };
    let Some(bag) = words.with_whole() else {
        return Err(Halt::Refused(reader.stopped(tokens)));
    };
    if !context.has_bodies() {
        return Err(Halt::Refused(reader.stopped(opening.brace)));
    }
    let members = members(reader, opening.inside)?;
    let tag = owned_tag(reader.alloc, opening.tag)?;
    let one = OneMore {
        tree: make_body(opening.line, opening.word, tag, members.value),
        is_body: true,
        bag,
    };
    Ok(Part {
        value: Some(one),
        rest: members.rest,
    })
}

/// The members of a `struct` or `union`, up to and with the closing brace.
#[cycle(specs)]
fn members<'a>(
    reader: &Reader<'_>,
    tokens: &'a [Token<'a>],
) -> Result<Part<'a, Measured<Vec<MemberTree>>>, Halt>
    requires { length tokens.now < 2 ^ 24 }
    ensures reads { Parses ShowsMembers (Members (is_type reader.now.names.now)) (map view tokens.now) result }
    ensures shorter { IfOk result (IsPast (length tokens.now)) }
{
    let mut found = Measured::Fits(Vec::with_capacity(reader.alloc, 1)?);
    let mut rest = (tokens,).0;
    'members: loop {
        let one = one_member(reader, rest)?;
        found = found.longer(one.value)?;
        if let Some((_, more)) = at_mark(one.rest, Mark::RightBrace) {
            return Ok(Part {
                value: found,
                rest: more,
            });
        }
        rest = one.rest;
    }
}

/// The words and the fields of one member, or of several of one type, up to and with the semicolon.
#[cycle(specs)]
fn one_member<'a>(
    reader: &Reader<'_>,
    tokens: &'a [Token<'a>],
) -> Result<Part<'a, Measured<MemberTree>>, Halt>
    requires { length tokens.now < 2 ^ 24 }
    ensures reads { Parses ShowsMember (OneMember (is_type reader.now.names.now)) (map view tokens.now) result }
    ensures shorter { IfOk result (IsPast (length tokens.now)) }
{
    let specs = spec_list(reader, Context::Aggregate, tokens)?;
    let fields = member_fields(reader, specs.rest)?;
    Ok(Part {
        value: make_member(specs.value.tree, fields.value),
        rest: fields.rest,
    })
}

/// The aggregate, where these words are one `struct` or `union` with its members.
pub fn only_body(specs: SpecList) -> Option<Measured<AggregateTree>>
    ensures { (ss : List Spec) → ShowsSpecs specs ss → TakesBody result ss }
{
    if !specs.alone {
        return None;
    }
    match specs.tree {
        Measured::Fits(words) => {
            let mut words = words;
            let aggregate = as_aggregate(words.pop()?)?;
            Some(Measured::Fits(aggregate))
        }
        Measured::TooDeep(deep) => Some(Measured::TooDeep(deep)),
    }
}
