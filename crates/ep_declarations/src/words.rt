//! One word more of those that begin a declaration.

ghost use Rattle.std.specs.Prelude.{◌≡◌, ◌<◌, ◌^◌, length, map, IfOk, IfSome, false, true};
ghost use Rattle.std.specs.Option.{option_map};
ghost use Rattle.ep_ast.specs.Mark.{word_number};
ghost use Rattle.ep_ast.specs.TypeWords.{fits};
ghost use Rattle.ep_ast.specs.DeclarationGrammar as grammar;
ghost use Rattle.ep_lexer.specs.Tokens.{view};
ghost use Rattle.ep_reading.specs.Names.{is_type};
ghost use Rattle.ep_reading.specs.Answer.{Parses};
ghost use Rattle.ep_type_names.specs.Words.{bag};
ghost use Rattle.ep_declarations.specs.Answer as answers;
ghost use Rattle.ep_declarations.specs.SpecAhead.{Ahead, ShowsAhead, IsPastWord, AtStorage, begins_body};
ghost use Rattle.ep_declarations.specs.SpecAhead.{seen_storage, IsPastStorage};

use crate::specs::Context;
use ep_ast::{Halt, Mark, SpecTree, TypeWordTree, Word};
use ep_lexer::Token;
use ep_reading::{Head, Measured, Part, Reader, at_mark, first_of};
use ep_type_names::{TypeBag, next_word};

/// A word, whether it is a `struct` or `union` with its members, and how many words of each sort there are with it.
#[derive(Drop)]
pub struct OneMore {
    pub tree: Measured<SpecTree>,
    pub is_body: bool,
    pub bag: TypeBag,
}

impl Context {
    /// Whether a `struct` or `union` may have its members here.
    pub fn has_bodies(&self) -> bool
        ensures { result ≡ grammar.has_bodies (answers.context self.now) }
    {
        match self {
            Context::FileScope | Context::Typedef | Context::Aggregate => true,
            Context::Block => false,
        }
    }

    /// Whether `static` and `inline` may stand here.
    fn has_storage(&self) -> bool
        ensures { result ≡ grammar.has_storage (answers.context self.now) }
    {
        match self {
            Context::FileScope => true,
            Context::Typedef | Context::Aggregate | Context::Block => false,
        }
    }
}

fn is_storage_word(word: Word) -> bool
    ensures { result ≡ grammar.is_storage_word (word_number word) }
{
    word == Word::Static || word == Word::Inline
}

/// `static` or `inline`, where it may stand, with its line and what comes after it.
fn at_storage<'a>(context: Context, tokens: &'a [Token<'a>]) -> Option<(u32, Word, &'a [Token<'a>])>
    ensures value { AtStorage (answers.context context) (map view tokens.now) (option_map seen_storage result) }
    ensures shorter { IfSome result (IsPastStorage (length tokens.now)) }
{
    match first_of(tokens) {
        Head::Word(line, word, rest) => if context.has_storage() && is_storage_word(word) {
            Some((line, word, rest))
        } else {
            None
        },
        _ => None,
    }
}

/// The next word, where no members come with it. The refusal names the word that can't join those before it, also where
/// something else is missing behind it.
pub fn plain_word<'a>(
    reader: &Reader<'_>,
    context: Context,
    words: &TypeBag,
    tokens: &'a [Token<'a>],
) -> Result<Part<'a, Option<OneMore>>, Halt>
    requires fit { fits (bag words.now) ≡ true }
    requires plain { begins_body (map view tokens.now) ≡ false }
    ensures reads { Parses (ShowsAhead (bag words.now))
        (Ahead (is_type reader.now.names.now) (answers.context context) (bag words.now)) (map view tokens.now) result }
    ensures shorter { IfOk result (IsPastWord (length tokens.now)) }
{
    if let Some((line, word, rest)) = at_storage(context, tokens) {
        let tree = Measured::Fits(SpecTree::Plain(TypeWordTree::Word(line, word)));
        let one = OneMore {
            tree,
            is_body: false,
            bag: *words,
        };
        return Ok(Part {
            value: Some(one),
            rest,
        });
    }
    let Some(word) = next_word(reader, words, tokens)? else {
        return Ok(Part {
            value: None,
            rest: tokens,
        });
    };
    let Some(bag) = words.with(&word.value) else {
        return Err(Halt::Refused(reader.stopped(tokens)));
    };
    if let Some(_) = at_mark(word.rest, Mark::LeftBrace) {
        return Err(Halt::Refused(reader.stopped(word.rest)));
    }
    let one = OneMore {
        tree: Measured::Fits(SpecTree::Plain(word.value)),
        is_body: false,
        bag,
    };
    Ok(Part {
        value: Some(one),
        rest: word.rest,
    })
}
