//! How many brackets and conditionals are open.

ghost use Rattle.std.specs.Prelude.{◌≡◌, ◌≤◌, map};
ghost use Rattle.std.specs.Option.{option_map};
ghost use Rattle.ep_ast.specs.Mark.{mark_number};
ghost use Rattle.ep_ast.specs.Nesting as nesting;
ghost use Rattle.ep_ast.specs.Depth as depth;
ghost use Rattle.ep_lexer.specs.Tokens.{view};
ghost use Rattle.ep_reading.specs.Look.{code_at};

use ep_ast::Mark;
use ep_lexer::{Token, TokenKind};

fn opens(mark: Mark) -> bool
    ensures { result ≡ nesting.opens (mark_number mark) }
{
    matches!(mark, Mark::LeftParen | Mark::LeftBracket | Mark::LeftBrace)
}

fn closes(mark: Mark) -> bool
    ensures { result ≡ nesting.closes (mark_number mark) }
{
    matches!(
        mark,
        Mark::RightParen | Mark::RightBracket | Mark::RightBrace
    )
}

fn counted(count: u32, mark: Mark) -> u32
    requires { count ≤ 64 }
    ensures { result ≡ nesting.counted count (mark_number mark) }
{
    if opens(mark) {
        count + 1
    } else if closes(mark) {
        count.saturating_sub(1)
    } else {
        count
    }
}

fn stops(count: u32, mark: Mark) -> bool
    ensures { result ≡ nesting.stops count (mark_number mark) }
{
    count == 0 && (closes(mark) || mark == Mark::Comma || mark == Mark::Semicolon)
}

fn mark_of(token: &Token<'_>) -> Option<Mark>
    ensures { option_map mark_number result ≡ code_at (view token.now) }
{
    match token.what {
        TokenKind::Mark(mark) => Some(mark),
        _ => None,
    }
}

/// The line of the first token at which more than 64 brackets are open, as far as an expression may reach.
pub fn opens_past(tokens: &[Token<'_>]) -> Option<u32>
    ensures { result ≡ nesting.opens_past 0 (map view tokens.now) }
{
    let mut count = 0;
    for token in tokens {
        if let Some(mark) = mark_of(token) {
            let next = counted(count, mark);
            if next > 64 {
                return Some(token.line);
            }
            if stops(count, mark) {
                return None;
            }
            count = next;
        }
    }
    None
}

/// How many are open behind the token, where so many are before it.
fn open_after(count: u32, token: &Token<'_>) -> u32
    requires { count ≤ 64 }
    ensures { result ≡ depth.open_after count (view token.now) }
{
    match token.what {
        TokenKind::Mark(mark) => counted(count, mark),
        TokenKind::IfLittle => count + 1,
        TokenKind::IfBig => count + 1,
        TokenKind::EndIf => count.saturating_sub(1),
        _ => count,
    }
}

/// The line of the first token at which more than 64 brackets and conditionals are open.
pub fn brackets_past(tokens: &[Token<'_>]) -> Option<u32>
    ensures { result ≡ depth.brackets_past 0 (map view tokens.now) }
{
    let mut count = 0;
    for token in tokens {
        let next = open_after(count, token);
        if next > 64 {
            return Some(token.line);
        }
        count = next;
    }
    None
}
