//! Reading the names of types.

ghost use Rattle.std.specs.Prelude.{◌≡◌, ◌<◌, ◌≤◌, ◌^◌, length, map, Err, IfOk, true};
ghost use Rattle.std.specs.Option.{option_map};
ghost use Rattle.ep_ast.specs.Expression.{type_word};
ghost use Rattle.ep_ast.specs.TypeWords as spec;
ghost use Rattle.ep_ast.specs.TypeWords.{AreType, TypeNamed, words_line};
ghost use Rattle.ep_ast.specs.Reading.{LacksWord};
ghost use Rattle.ep_ast.specs.Mark.{const_word, word_number};
ghost use Rattle.ep_lexer.specs.Tokens.{view};
ghost use Rattle.ep_reading.specs.Names.{is_type};
ghost use Rattle.ep_reading.specs.Answer.{ParsesAs, IsPast, IsWithin, after};
ghost use Rattle.ep_type_names.specs.Words.{bag, Joins, OneRead, IsPastWord, CountsConsts, ReadsStars, words_of};
ghost use Rattle.ep_type_names.specs.Words.{name_of};

use crate::look::{is_tag_word, is_type_word};
use ep_ast::{Halt, Mark, TypeNameTree, TypeWordTree, Word};
use ep_lexer::Token;
use ep_reading::{Head, Part, Reader, at_mark, at_name, at_word, first_of, pushed};
use std::alloc::{AllocError, Global};

/// How many words of each sort stand together: `signed` and `unsigned` are signs, and the last counts `void`, typedef
/// names and tags.
#[derive(Clone, Copy)]
pub struct TypeBag {
    pub chars: u8,
    pub shorts: u8,
    pub ints: u8,
    pub longs: u8,
    pub signs: u8,
    pub wholes: u8,
}

impl TypeBag {
    /// No words yet.
    pub fn new() -> TypeBag
        ensures { bag result ≡ spec.no_bag }
    {
        TypeBag {
            chars: 0,
            shorts: 0,
            ints: 0,
            longs: 0,
            signs: 0,
            wholes: 0,
        }
    }

    fn is_basic(&self) -> bool
        ensures { result ≡ spec.is_basic (bag self.now) }
    {
        self.chars == 0 && self.shorts == 0 && self.ints == 0 && self.longs == 0 && self.signs == 0
    }

    /// Whether there are no words.
    pub fn is_empty(&self) -> bool
        ensures { result ≡ spec.is_no_bag (bag self.now) }
    {
        self.wholes == 0 && self.is_basic()
    }

    fn is_integer(&self) -> bool
        ensures { result ≡ spec.is_integer (bag self.now) }
    {
        if self.chars == 0 {
            self.ints <= 1
                && if self.shorts == 0 {
                    self.longs <= 2
                } else {
                    self.shorts == 1 && self.longs == 0
                }
        } else {
            self.chars == 1 && self.shorts == 0 && self.ints == 0 && self.longs == 0
        }
    }

    /// Whether a type may have these words beside one another.
    pub fn fits(&self) -> bool
        ensures { result ≡ spec.fits (bag self.now) }
    {
        if self.wholes == 0 {
            self.signs <= 1 && self.is_integer()
        } else {
            self.wholes == 1 && self.is_basic()
        }
    }

    fn fitting(self) -> Option<TypeBag>
        ensures { Joins (bag self) (option_map bag result) }
    {
        if self.fits() { Some(self) } else { None }
    }

    /// With a typedef name, a tag or members, or None where it doesn't fit.
    pub fn with_whole(&self) -> Option<TypeBag>
        requires { spec.fits (bag self.now) ≡ true }
        ensures { Joins (spec.with_whole (bag self.now)) (option_map bag result) }
    {
        let mut next = *self;
        next.wholes += 1;
        next.fitting()
    }

    /// With an accepted word, or None where it doesn't fit.
    pub fn with_word(&self, word: Word) -> Option<TypeBag>
        requires { spec.fits (bag self.now) ≡ true }
        ensures { Joins (spec.with_word (bag self.now) (word_number word)) (option_map bag result) }
    {
        let mut next = *self;
        match word {
            Word::Char => next.chars += 1,
            Word::Short => next.shorts += 1,
            Word::Int => next.ints += 1,
            Word::Long => next.longs += 1,
            Word::Signed | Word::Unsigned => next.signs += 1,
            Word::Void => next.wholes += 1,
            _ => {}
        }
        next.fitting()
    }

    /// With a word, or None where it doesn't fit.
    pub fn with(&self, word: &TypeWordTree) -> Option<TypeBag>
        requires { spec.fits (bag self.now) ≡ true }
        ensures { Joins (spec.joined (bag self.now) (type_word word.now)) (option_map bag result) }
    {
        match word {
            TypeWordTree::Word(_, word) => self.with_word(*word),
            TypeWordTree::Name(_, _) | TypeWordTree::Tag(_, _, _) => self.with_whole(),
        }
    }
}

/// The word of a type that stands first, and what comes after it; None where none begins.
fn one_word<'a>(
    reader: &Reader<'_>,
    tokens: &'a [Token<'a>],
) -> Result<Option<Part<'a, TypeWordTree>>, Halt>
    ensures reads { OneRead (is_type reader.now.names.now) (map view tokens.now) result }
    ensures shorter { IfOk result (IsPastWord (length tokens.now)) }
{
    match first_of(tokens) {
        Head::Word(line, word, rest) => if is_type_word(word) {
            Ok(Some(Part {
                value: TypeWordTree::Word(line, word),
                rest,
            }))
        } else if is_tag_word(word) {
            match at_name(rest) {
                Some((_, tag, more)) => {
                    let tag = Vec::from_slice(reader.alloc, tag)?;
                    Ok(Some(Part {
                        value: TypeWordTree::Tag(line, word, tag),
                        rest: more,
                    }))
                }
                None => Err(Halt::Refused(reader.stopped(rest))),
            }
        } else {
            Ok(None)
        },
        Head::Name(line, text, rest) => if reader.names.has(text) {
            let text = Vec::from_slice(reader.alloc, text)?;
            Ok(Some(Part {
                value: TypeWordTree::Name(line, text),
                rest,
            }))
        } else {
            Ok(None)
        },
        _ => Ok(None),
    }
}

// A refusal of a first word stands; behind words it is that of the first token here.
fn stopped_behind(reader: &Reader<'_>, words: &TypeBag, tokens: &[Token<'_>], halt: Halt) -> Halt
    ensures { OneRead (is_type reader.now.names.now) (map view tokens.now) (Err halt)
        → OneRead (is_type reader.now.names.now) (map view tokens.now) (Err result) }
{
    match halt {
        Halt::Refused(_) => if words.is_empty() {
            halt
        } else {
            Halt::Refused(reader.stopped(tokens))
        },
        Halt::Memory => halt,
    }
}

/// The same behind words of these sorts. A `struct` or `union` that can't join them is the place of a refusal itself,
/// also
/// where its tag is missing.
pub fn next_word<'a>(
    reader: &Reader<'_>,
    words: &TypeBag,
    tokens: &'a [Token<'a>],
) -> Result<Option<Part<'a, TypeWordTree>>, Halt>
    ensures reads { OneRead (is_type reader.now.names.now) (map view tokens.now) result }
    ensures shorter { IfOk result (IsPastWord (length tokens.now)) }
{
    match one_word(reader, tokens) {
        Ok(word) => Ok(word),
        Err(halt) => Err(stopped_behind(reader, words, tokens, halt)),
    }
}

/// The words of a type without members, all that stand here. The refusal names the first word that can't join.
pub fn type_words<'a>(
    reader: &Reader<'_>,
    tokens: &'a [Token<'a>],
) -> Result<Part<'a, Vec<TypeWordTree>>, Halt>
    ensures reads { ParsesAs words_of (AreType (is_type reader.now.names.now)) (map view tokens.now) result }
    ensures shorter { IfOk result (IsWithin (length tokens.now)) }
{
    let mut words = Vec::new(reader.alloc);
    let mut bag = TypeBag::new();
    // The variable has a lifetime of its own.
    let mut rest = (tokens,).0;
    'words: loop {
        let Some(word) = next_word(reader, &bag, rest)? else {
            if bag.is_empty() {
                return Err(Halt::Refused(reader.stopped(rest)));
            }
            return Ok(Part { value: words, rest });
        };
        let Some(next) = bag.with(&word.value) else {
            return Err(Halt::Refused(reader.stopped(rest)));
        };
        words = pushed(words, word.value)?;
        bag = next;
        rest = word.rest;
    }
}

/// How many `const` stand here, and what comes after them.
fn consts<'a>(tokens: &'a [Token<'a>]) -> Part<'a, u32>
    requires { length tokens.now < 2 ^ 24 }
    ensures counts { CountsConsts (map view tokens.now) result.value (after result) }
    ensures shorter { IsWithin (length tokens.now) result }
{
    let mut count = 0;
    let mut rest = (tokens,).0;
    while let Some((_, more)) = at_word(rest, Word::Const) {
        count += 1;
        rest = more;
    }
    Part { value: count, rest }
}

/// All stars that stand here, each with the number of `const` after it.
pub fn stars<'a>(alloc: Global, tokens: &'a [Token<'a>]) -> Result<Part<'a, Vec<u32>>, AllocError>
    requires few { length tokens.now < 2 ^ 24 }
    requires begins { LacksWord const_word (map view tokens.now) }
    ensures reads { IfOk result (ReadsStars (map view tokens.now)) }
    ensures shorter { IfOk result (IsWithin (length tokens.now)) }
{
    let mut found = Vec::new(alloc);
    let mut rest = (tokens,).0;
    'stars: loop {
        let Some((_, more)) = at_mark(rest, Mark::Star) else {
            return Ok(Part { value: found, rest });
        };
        let count = consts(more);
        found.push(count.value)?;
        rest = count.rest;
    }
}

/// The line of the first of these words.
fn line_of(words: &[TypeWordTree]) -> u32
    ensures { result ≡ words_line (map type_word words.now) }
{
    match words {
        [] => 0,
        [first, ..] => match first {
            TypeWordTree::Word(line, _)
            | TypeWordTree::Name(line, _)
            | TypeWordTree::Tag(line, _, _) => *line,
        },
    }
}

/// The name of a type, from behind an opening parenthesis to behind the closing one.
pub fn type_name<'a>(
    reader: &Reader<'_>,
    tokens: &'a [Token<'a>],
) -> Result<Part<'a, Box<TypeNameTree>>, Halt>
    requires { length tokens.now < 2 ^ 24 }
    ensures reads { ParsesAs name_of (TypeNamed (is_type reader.now.names.now)) (map view tokens.now) result }
    ensures shorter { IfOk result (IsPast (length tokens.now)) }
{
    let specs = type_words(reader, tokens)?;
    let stars = stars(reader.alloc, specs.rest)?;
    let Some((_, more)) = at_mark(stars.rest, Mark::RightParen) else {
        return Err(Halt::Refused(reader.stopped(stars.rest)));
    };
    let line = line_of(&specs.value);
    let tree = TypeNameTree {
        line,
        specs: specs.value,
        stars: stars.value,
    };
    let value = Box::new(reader.alloc, tree)?;
    Ok(Part { value, rest: more })
}
