//! Reading statements in which no statement stands.

ghost use Rattle.std.specs.Prelude.{◌≡◌, ◌<◌, ◌^◌, ◌∷◌, length, map, ℕ, Bool, List, IfOk};
ghost use Rattle.ep_ast.specs.Token.{Tok, word, line_of};
ghost use Rattle.ep_ast.specs.Mark.{break_word, continue_word, return_word};
ghost use Rattle.ep_ast.specs.StatementGrammar.{States};
ghost use Rattle.ep_lexer.specs.Tokens.{view};
ghost use Rattle.ep_reading.specs.Names.{is_type};
ghost use Rattle.ep_reading.specs.Answer.{Parses, IsPast};
ghost use Rattle.ep_statement_parts.specs.View.{ShowsStmt};
ghost use Rattle.ep_simple_statements.specs.Piece.{IsOther, IsSimple};

use crate::pieces::up_to;
use ep_ast::{Halt, Mark, StmtTree, Word};
use ep_lexer::Token;
use ep_reading::{Head, Part, Reader, at_mark, first_of};
use ep_statement_parts::{Counted, break_loop, continue_loop, evaluate, return_value};

/// What stands behind a `break` of this line.
fn break_end<'a>(
    reader: &Reader<'_>,
    line: u32,
    tokens: &'a [Token<'a>],
) -> Result<Part<'a, Counted<StmtTree>>, Halt>
    ensures reads { (N : List ℕ → Bool) (c : ℕ) → c ≡ break_word
        → Parses ShowsStmt (States N) (word line c ∷ map view tokens.now) result }
    ensures shorter { IfOk result (IsPast (length tokens.now)) }
{
    match at_mark(tokens, Mark::Semicolon) {
        Some((_, after)) => Ok(Part {
            value: break_loop(line),
            rest: after,
        }),
        None => Err(Halt::Refused(reader.stopped(tokens))),
    }
}

/// What stands behind a `continue` of this line.
fn continue_end<'a>(
    reader: &Reader<'_>,
    line: u32,
    tokens: &'a [Token<'a>],
) -> Result<Part<'a, Counted<StmtTree>>, Halt>
    ensures reads { (N : List ℕ → Bool) (c : ℕ) → c ≡ continue_word
        → Parses ShowsStmt (States N) (word line c ∷ map view tokens.now) result }
    ensures shorter { IfOk result (IsPast (length tokens.now)) }
{
    match at_mark(tokens, Mark::Semicolon) {
        Some((_, after)) => Ok(Part {
            value: continue_loop(line),
            rest: after,
        }),
        None => Err(Halt::Refused(reader.stopped(tokens))),
    }
}

/// What stands behind a `return` of this line.
fn return_end<'a>(
    reader: &Reader<'_>,
    line: u32,
    tokens: &'a [Token<'a>],
) -> Result<Part<'a, Counted<StmtTree>>, Halt>
    requires { length tokens.now < 2 ^ 24 }
    ensures reads { (c : ℕ) → c ≡ return_word → Parses ShowsStmt (States (is_type reader.now.names.now))
        (word line c ∷ map view tokens.now) result }
    ensures shorter { IfOk result (IsPast (length tokens.now)) }
{
    let given = up_to(reader, line, Mark::Semicolon, tokens)?;
    Ok(Part {
        value: return_value(line, given.value),
        rest: given.rest,
    })
}

/// An expression with its semicolon, or a semicolon alone. The line is that of the first token.
fn evaluation<'a>(
    reader: &Reader<'_>,
    line: u32,
    tokens: &'a [Token<'a>],
) -> Result<Part<'a, Counted<StmtTree>>, Halt>
    requires { length tokens.now < 2 ^ 24 }
    ensures reads { (t : Tok) (ts : List Tok) → map view tokens.now ≡ t ∷ ts → line ≡ line_of t
        → IsOther (map view tokens.now)
        → Parses ShowsStmt (States (is_type reader.now.names.now)) (map view tokens.now) result }
    ensures shorter { IfOk result (IsPast (length tokens.now)) }
{
    let given = up_to(reader, line, Mark::Semicolon, tokens)?;
    Ok(Part {
        value: evaluate(line, given.value),
        rest: given.rest,
    })
}

/// A statement that begins with no head and no brace.
pub fn simple<'a>(
    reader: &Reader<'_>,
    tokens: &'a [Token<'a>],
) -> Result<Part<'a, Counted<StmtTree>>, Halt>
    requires { length tokens.now < 2 ^ 24 }
    ensures reads { IsSimple (map view tokens.now) → Parses ShowsStmt (States (is_type reader.now.names.now))
        (map view tokens.now) result }
    ensures shorter { IfOk result (IsPast (length tokens.now)) }
{
    match first_of(tokens) {
        Head::Word(line, word, rest) => match word {
            Word::Break => break_end(reader, line, rest),
            Word::Continue => continue_end(reader, line, rest),
            Word::Return => return_end(reader, line, rest),
            _ => evaluation(reader, line, tokens),
        },
        Head::Name(line, _, _) => evaluation(reader, line, tokens),
        Head::Number(line, _, _) => evaluation(reader, line, tokens),
        Head::Mark(line, _, _) => evaluation(reader, line, tokens),
        Head::Other => Err(Halt::Refused(reader.stopped(tokens))),
    }
}
