//! Looks at the marks and words of expressions.

ghost use Rattle.std.specs.Prelude.{◌≡◌, length, map, IfSome, false};
ghost use Rattle.std.specs.Option.{option_map};
ghost use Rattle.ep_ast.specs.Grammar as grammar;
ghost use Rattle.ep_ast.specs.Mark.{mark_number};
ghost use Rattle.ep_ast.specs.Reading.{is_suffix};
ghost use Rattle.ep_lexer.specs.Tokens.{view};
ghost use Rattle.ep_reading.specs.Names.{is_type};
ghost use Rattle.ep_reading.specs.Look.{IsShorter, seen};
ghost use Rattle.ep_exprs.specs.Look.{NotAt, AtOperator, AtAssignment, AtCast, IsShorterMark, begins_cast};
ghost use Rattle.ep_exprs.specs.Look.{begins_suffix, seen_mark, may_follow};

use ep_ast::Mark;
use ep_lexer::{Token, TokenKind};
use ep_reading::{Head, TypeNames, at_mark, first_of};
use ep_type_names::begins_type;

/// The level of a binary operator, 0 for other marks.
fn level(mark: Mark) -> u8
    ensures { result ≡ grammar.level (mark_number mark) }
{
    match mark {
        Mark::BarBar => 1,
        Mark::AndAnd => 2,
        Mark::Bar => 3,
        Mark::Caret => 4,
        Mark::Ampersand => 5,
        Mark::EqualEqual | Mark::NotEqual => 6,
        Mark::Less | Mark::LessEqual | Mark::Greater | Mark::GreaterEqual => 7,
        Mark::LeftShift | Mark::RightShift => 8,
        Mark::Plus | Mark::Minus => 9,
        Mark::Star | Mark::Slash | Mark::Percent => 10,
        _ => 0,
    }
}

/// The operator of this level, if one stands first, with its line and what comes after it.
pub fn at_operator<'a>(tokens: &'a [Token<'a>], at: u8) -> Option<(u32, Mark, &'a [Token<'a>])>
    ensures value { AtOperator at (map view tokens.now) (option_map seen_mark result) }
    ensures shorter { IfSome result (IsShorterMark (length tokens.now)) }
{
    match tokens {
        [first, rest @ ..] => match first.what {
            TokenKind::Mark(mark) => if level(mark) == at {
                Some((first.line, mark, rest))
            } else {
                None
            },
            _ => None,
        },
        [] => None,
    }
}

/// Whether an operator of this level stands first.
pub fn begins_operator(tokens: &[Token<'_>], at: u8) -> bool
    ensures { result ≡ false → NotAt at (map view tokens.now) }
{
    match at_operator(tokens, at) {
        Some(_) => true,
        None => false,
    }
}

fn is_assignment(mark: Mark) -> bool
    ensures { result ≡ grammar.is_assignment (mark_number mark) }
{
    matches!(
        mark,
        Mark::Equal
            | Mark::LeftShiftEqual
            | Mark::RightShiftEqual
            | Mark::PlusEqual
            | Mark::MinusEqual
            | Mark::StarEqual
            | Mark::SlashEqual
            | Mark::PercentEqual
            | Mark::AmpersandEqual
            | Mark::BarEqual
            | Mark::CaretEqual
    )
}

/// The assignment mark that stands first, with its line and what comes after it.
pub fn at_assignment<'a>(tokens: &'a [Token<'a>]) -> Option<(u32, Mark, &'a [Token<'a>])>
    ensures value { AtAssignment (map view tokens.now) (option_map seen_mark result) }
    ensures shorter { IfSome result (IsShorterMark (length tokens.now)) }
{
    match tokens {
        [first, rest @ ..] => match first.what {
            TokenKind::Mark(mark) => if is_assignment(mark) {
                Some((first.line, mark, rest))
            } else {
                None
            },
            _ => None,
        },
        [] => None,
    }
}

/// Whether it is an operator that stands before its operand (C11 6.5.3).
pub fn is_prefix(mark: Mark) -> bool
    ensures { result ≡ grammar.is_prefix (mark_number mark) }
{
    matches!(
        mark,
        Mark::Ampersand | Mark::Star | Mark::Plus | Mark::Minus | Mark::Tilde | Mark::Exclamation
    )
}

/// Whether it is `++` or `--`.
pub fn is_step(mark: Mark) -> bool
    ensures { result ≡ grammar.is_step (mark_number mark) }
{
    matches!(mark, Mark::PlusPlus | Mark::MinusMinus)
}

fn is_suffix(mark: Mark) -> bool
    ensures { result ≡ is_suffix (mark_number mark) }
{
    matches!(
        mark,
        Mark::LeftBracket
            | Mark::LeftParen
            | Mark::Dot
            | Mark::Arrow
            | Mark::PlusPlus
            | Mark::MinusMinus
    )
}

/// Whether a mark stands first that stands behind an operand.
pub fn begins_suffix(tokens: &[Token<'_>]) -> bool
    ensures { result ≡ begins_suffix (map view tokens.now) }
{
    match first_of(tokens) {
        Head::Mark(_, mark, _) => is_suffix(mark),
        _ => false,
    }
}

/// The line of a parenthesis before a word of a type, and what comes after it.
pub fn at_cast<'a>(names: &TypeNames, tokens: &'a [Token<'a>]) -> Option<(u32, &'a [Token<'a>])>
    ensures value { AtCast (is_type names.now) (map view tokens.now) (option_map seen result) }
    ensures shorter { IfSome result (IsShorter (length tokens.now)) }
{
    let (line, inside) = at_mark(tokens, Mark::LeftParen)?;
    if begins_type(names, inside) {
        Some((line, inside))
    } else {
        None
    }
}

/// Whether the name of a type in parentheses begins here.
pub fn begins_cast(names: &TypeNames, tokens: &[Token<'_>]) -> bool
    ensures { result ≡ begins_cast (is_type names.now) (map view tokens.now) }
{
    match at_cast(names, tokens) {
        Some(_) => true,
        None => false,
    }
}

fn may_follow(mark: Mark) -> bool
    ensures { result ≡ may_follow (mark_number mark) }
{
    matches!(
        mark,
        Mark::RightParen
            | Mark::RightBracket
            | Mark::RightBrace
            | Mark::Comma
            | Mark::Semicolon
            | Mark::Colon
    )
}

/// Whether something stands here that may follow an expression.
pub fn follows(tokens: &[Token<'_>]) -> bool
    ensures { result ≡ grammar.follows (map view tokens.now) }
{
    match tokens {
        [] => true,
        [first, ..] => match first.what {
            TokenKind::Mark(mark) => may_follow(mark),
            _ => false,
        },
    }
}
