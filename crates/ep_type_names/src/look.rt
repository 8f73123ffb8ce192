//! What begins a type.

ghost use Rattle.std.specs.Prelude.{◌≡◌, map};
ghost use Rattle.ep_ast.specs.Mark.{word_number};
ghost use Rattle.ep_ast.specs.TypeWords as words;
ghost use Rattle.ep_lexer.specs.Tokens.{view};
ghost use Rattle.ep_reading.specs.Names.{is_type};

use ep_ast::Word;
use ep_lexer::Token;
use ep_reading::{Head, TypeNames, first_of};

/// Whether a keyword is a word of a basic type, or `const`.
pub fn is_type_word(word: Word) -> bool
    ensures { result ≡ words.is_type_word (word_number word) }
{
    matches!(
        word,
        Word::Char
            | Word::Const
            | Word::Int
            | Word::Long
            | Word::Short
            | Word::Signed
            | Word::Unsigned
            | Word::Void
    )
}

/// Whether a keyword stands before a tag.
pub fn is_tag_word(word: Word) -> bool
    ensures { result ≡ words.is_tag_word (word_number word) }
{
    word == Word::Struct || word == Word::Union
}

/// Whether a word of a type stands first.
pub fn begins_type(names: &TypeNames, tokens: &[Token<'_>]) -> bool
    ensures { result ≡ words.begins_type (is_type names.now) (map view tokens.now) }
{
    match first_of(tokens) {
        Head::Word(_, word, _) => is_type_word(word) || is_tag_word(word),
        Head::Name(_, text, _) => names.has(text),
        _ => false,
    }
}
