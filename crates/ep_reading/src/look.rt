//! Looks at the first tokens.

ghost use Rattle.std.specs.Prelude.{◌≡◌, ◌<◌, length, map, IfSome, true, false};
ghost use Rattle.std.specs.Option.{option_map};
ghost use Rattle.ep_ast.specs.Mark.{mark_number, word_number};
ghost use Rattle.ep_ast.specs.Reading.{AtMark, AtWord, AtName};
ghost use Rattle.ep_lexer.specs.Tokens.{view};
ghost use Rattle.ep_reading.specs.Look as look;
ghost use Rattle.ep_reading.specs.Look.{AtIf, AtElse, AtEndIf, IsHead, IsShorter, IsShorterText, IsShorterOrder, seen};
ghost use Rattle.ep_reading.specs.Look.{seen_text, seen_order};

use ep_ast::{Literal, Mark, NamedOrder, Word};
use ep_lexer::{Token, TokenKind};

/// The first token, and what comes after it. The last is a directive, or no token.
#[derive(Clone, Copy)]
pub enum Head<'a> {
    Word(u32, Word, &'a [Token<'a>]),
    Name(u32, &'a [u8], &'a [Token<'a>]),
    Number(u32, Literal, &'a [Token<'a>]),
    Mark(u32, Mark, &'a [Token<'a>]),
    Other,
}

/// The first token and those behind it, if there is one.
pub fn first_of<'a>(tokens: &'a [Token<'a>]) -> Head<'a>
    ensures { IsHead result (map view tokens.now) }
{
    match tokens {
        [] => Head::Other,
        [first, rest @ ..] => match &first.what {
            TokenKind::Word(word) => Head::Word(first.line, *word, rest),
            TokenKind::Name(text) => Head::Name(first.line, text, rest),
            TokenKind::Number(n) => Head::Number(first.line, *n, rest),
            TokenKind::Mark(mark) => Head::Mark(first.line, *mark, rest),
            TokenKind::IfLittle | TokenKind::IfBig | TokenKind::Other | TokenKind::EndIf => {
                Head::Other
            }
        },
    }
}

fn is_mark(own: Mark, mark: Mark) -> bool
    ensures same { result ≡ true → mark_number own ≡ mark_number mark }
    ensures apart { result ≡ false → mark_number own ≡ mark_number mark → ⊥ }
{
    own == mark
}

fn is_word(own: Word, word: Word) -> bool
    ensures same { result ≡ true → word_number own ≡ word_number word }
    ensures apart { result ≡ false → word_number own ≡ word_number word → ⊥ }
{
    own == word
}

/// The line of this mark, if it stands first, and what comes after it.
pub fn at_mark<'a>(tokens: &'a [Token<'a>], mark: Mark) -> Option<(u32, &'a [Token<'a>])>
    ensures value { AtMark (mark_number mark) (map view tokens.now) (option_map seen result) }
    ensures shorter { IfSome result (IsShorter (length tokens.now)) }
{
    match tokens {
        [first, rest @ ..] => match first.what {
            TokenKind::Mark(own) => if is_mark(own, mark) {
                Some((first.line, rest))
            } else {
                None
            },
            _ => None,
        },
        [] => None,
    }
}

/// The line of this word, if it stands first, and what comes after it.
pub fn at_word<'a>(tokens: &'a [Token<'a>], word: Word) -> Option<(u32, &'a [Token<'a>])>
    ensures value { AtWord (word_number word) (map view tokens.now) (option_map seen result) }
    ensures shorter { IfSome result (IsShorter (length tokens.now)) }
{
    match tokens {
        [first, rest @ ..] => match first.what {
            TokenKind::Word(own) => if is_word(own, word) {
                Some((first.line, rest))
            } else {
                None
            },
            _ => None,
        },
        [] => None,
    }
}

/// The name that stands first, with its line and what comes after it.
pub fn at_name<'a>(tokens: &'a [Token<'a>]) -> Option<(u32, &'a [u8], &'a [Token<'a>])>
    ensures value { AtName (map view tokens.now) (option_map seen_text result) }
    ensures shorter { IfSome result (IsShorterText (length tokens.now)) }
{
    match tokens {
        [first, rest @ ..] => match &first.what {
            TokenKind::Name(text) => Some((first.line, text, rest)),
            _ => None,
        },
        [] => None,
    }
}

/// The line and order of an `#if`, if one stands first, and what comes after it.
pub fn at_if<'a>(tokens: &'a [Token<'a>]) -> Option<(u32, NamedOrder, &'a [Token<'a>])>
    ensures value { AtIf (map view tokens.now) (option_map seen_order result) }
    ensures shorter { IfSome result (IsShorterOrder (length tokens.now)) }
{
    match tokens {
        [first, rest @ ..] => match first.what {
            TokenKind::IfLittle => Some((first.line, NamedOrder::Little, rest)),
            TokenKind::IfBig => Some((first.line, NamedOrder::Big, rest)),
            _ => None,
        },
        [] => None,
    }
}

/// The line of an `#else`, if one stands first, and what comes after it.
pub fn at_else<'a>(tokens: &'a [Token<'a>]) -> Option<(u32, &'a [Token<'a>])>
    ensures value { AtElse (map view tokens.now) (option_map seen result) }
    ensures shorter { IfSome result (IsShorter (length tokens.now)) }
{
    match tokens {
        [first, rest @ ..] => match first.what {
            TokenKind::Other => Some((first.line, rest)),
            _ => None,
        },
        [] => None,
    }
}

/// The line of an `#endif`, if one stands first, and what comes after it.
pub fn at_end_if<'a>(tokens: &'a [Token<'a>]) -> Option<(u32, &'a [Token<'a>])>
    ensures value { AtEndIf (map view tokens.now) (option_map seen result) }
    ensures shorter { IfSome result (IsShorter (length tokens.now)) }
{
    match tokens {
        [first, rest @ ..] => match first.what {
            TokenKind::EndIf => Some((first.line, rest)),
            _ => None,
        },
        [] => None,
    }
}

/// Whether an `#else` or `#endif` stands first.
pub fn ends_arm(tokens: &[Token<'_>]) -> bool
    ensures { result ≡ look.ends_arm (map view tokens.now) }
{
    match tokens {
        [] => false,
        [first, ..] => match first.what {
            TokenKind::Other | TokenKind::EndIf => true,
            _ => false,
        },
    }
}

/// The line of the last token, 1 where there is none.
pub fn last_line(tokens: &[Token<'_>]) -> u32 {
    match tokens.last() {
        Some(token) => token.line,
        None => 1,
    }
}
