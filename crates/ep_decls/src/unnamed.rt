//! The place of a refusal where a parameter has no name.

ghost use Rattle.ep_decls.specs.Answer.{IsMoved};

use crate::look::behind_stars;
use ep_ast::{Halt, Mark, Refusal, Word};
use ep_lexer::{Token, TokenKind};
use ep_reading::{TypeNames, at_mark, at_name, at_word};

/// What stands last of a parameter that is looked at.
#[derive(Clone, Copy)]
enum Seen {
    /// A word of its type or a star; and whether it is a word that a tag follows.
    Type(bool),
    /// Its name, and behind that so many open brackets.
    Name(u32),
}

/// With a token more, where no name has come; None where it can't stand before a name.
fn before_name(names: &TypeNames, tag: bool, token: &Token<'_>) -> Option<Seen> {
    match &token.what {
        TokenKind::Word(word) => Some(Seen::Type(*word == Word::Struct || *word == Word::Union)),
        TokenKind::Name(text) => if tag || names.has(text) {
            Some(Seen::Type(false))
        } else {
            Some(Seen::Name(0))
        },
        TokenKind::Mark(mark) => if *mark == Mark::Star {
            Some(Seen::Type(false))
        } else {
            None
        },
        _ => None,
    }
}

/// With a mark more behind the name; None where the parameters end.
fn behind_name(open: u32, mark: Mark) -> Option<Seen> {
    if mark == Mark::LeftParen || mark == Mark::LeftBracket {
        return Some(Seen::Name(open.saturating_add(1)));
    }
    if open == 0 && mark == Mark::Comma {
        return Some(Seen::Type(false));
    }
    if open == 0 && mark == Mark::RightParen {
        return None;
    }
    if mark == Mark::RightParen || mark == Mark::RightBracket {
        return Some(Seen::Name(open.saturating_sub(1)));
    }
    Some(Seen::Name(open))
}

/// Whether no parameter stands behind the opening parenthesis.
fn has_none(inside: &[Token<'_>]) -> bool {
    match at_word(inside, Word::Void) {
        Some((_, rest)) => at_mark(rest, Mark::RightParen).is_some(),
        None => at_mark(inside, Mark::RightParen).is_some(),
    }
}

/// The line of the token behind the first parameter without a name, where these tokens begin behind the words of a
/// head; where the head itself is to be refused, perhaps that of a token after the one that is refused.
pub fn behind_unnamed(names: &TypeNames, tokens: &[Token<'_>]) -> Option<u32> {
    let (_, _, behind) = at_name(behind_stars(tokens))?;
    let (_, inside) = at_mark(behind, Mark::LeftParen)?;
    if has_none(inside) {
        return None;
    }
    let mut seen = Seen::Type(false);
    for token in inside {
        match seen {
            Seen::Type(tag) => {
                let Some(next) = before_name(names, tag, token) else {
                    return Some(token.line);
                };
                seen = next;
            }
            Seen::Name(open) => if let TokenKind::Mark(mark) = token.what {
                seen = behind_name(open, mark)?;
            },
        }
    }
    None
}

/// A refusal of a place that isn't behind this line.
pub fn no_later(halt: Halt, line: Option<u32>) -> Halt
    ensures { IsMoved halt result }
{
    match halt {
        Halt::Refused(refusal) => match line {
            Some(place) => Halt::Refused(Refusal {
                line: refusal.line.min(place),
                ..refusal
            }),
            None => halt,
        },
        Halt::Memory => halt,
    }
}
