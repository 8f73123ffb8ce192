//! Reading blocks. Braces alone recurse, and the arms of statements by byte order: heads wait in a list. How many of
//! these are open is counted before anything is read, so no limit is passed on.

ghost use Rattle.std.specs.Prelude.{◌≡◌, ◌<◌, ◌^◌, length, map, IfOk};
ghost use Rattle.ep_ast.specs.StatementGrammar as grammar;
ghost use Rattle.ep_ast.specs.StatementGrammar.{Blocks};
ghost use Rattle.ep_lexer.specs.Tokens.{view};
ghost use Rattle.ep_reading.specs.Names.{is_type};
ghost use Rattle.ep_reading.specs.Answer.{Parses, IsPast, IsWithin};
ghost use Rattle.ep_statement_parts.specs.Answer.{ShowsBlock};
ghost use Rattle.ep_statement_parts.specs.View.{ShowsStmt, ShowsPart, ShowsStmts, ShowsParts, ShowsOther};
ghost use Rattle.ep_simple_statements.specs.Piece.{HasNoHead};

use ep_ast::{BlockItemTree, BlockTree, Halt, Mark, StmtTree};
use ep_declarations::declaration;
use ep_lexer::Token;
use ep_reading::{Measured, Part, Reader, at_else, at_end_if, at_if, at_mark, ends_arm};
use ep_simple_statements::simple;
use ep_statement_heads::{Completed, complete, opening};
use ep_statement_parts::{Counted, block_of, block_tree_of, declares, one_arm, states, two_arms};
use ep_type_names::begins_type;

/// The body of a function, with its braces.
pub fn block<'a>(
    reader: &Reader<'_>,
    tokens: &'a [Token<'a>],
) -> Result<Part<'a, Measured<BlockTree>>, Halt>
    requires { length tokens.now < 2 ^ 24 }
    ensures reads { Parses ShowsBlock (Blocks (is_type reader.now.names.now)) (map view tokens.now) result }
    ensures shorter { IfOk result (IsPast (length tokens.now)) }
{
    let Some((line, inside)) = at_mark(tokens, Mark::LeftBrace) else {
        return Err(Halt::Refused(reader.stopped(tokens)));
    };
    let all = parts(reader, inside)?;
    Ok(Part {
        value: block_tree_of(line, all.value),
        rest: all.rest,
    })
}

/// A statement, whatever stands inside it.
#[cycle(statements)]
fn statement<'a>(
    reader: &Reader<'_>,
    tokens: &'a [Token<'a>],
) -> Result<Part<'a, Counted<StmtTree>>, Halt>
    requires { length tokens.now < 2 ^ 24 }
    ensures reads { Parses ShowsStmt (grammar.States (is_type reader.now.names.now)) (map view tokens.now) result }
    ensures shorter { IfOk result (IsPast (length tokens.now)) }
{
    let mut frames = Vec::new(reader.alloc);
    // The variable has a lifetime of its own.
    let mut rest = (tokens,).0;
    'heads: loop {
        match opening(reader, rest)? {
            Some(frame) => {
                frames.push(frame.value)?;
                rest = frame.rest;
            }
            None => {
                let inner = innermost(reader, rest)?;
                let completed = complete(reader, frames, inner.value, inner.rest)?;
                let end = completed.rest;
                match completed.value {
                    Completed::Whole(whole) => {
                        return Ok(Part {
                            value: whole,
                            rest: end,
                        });
                    }
                    Completed::Else(left) => {
                        frames = left;
                        rest = end;
                    }
                }
            }
        }
    }
}

/// A statement that begins with no head.
#[cycle(statements)]
fn innermost<'a>(
    reader: &Reader<'_>,
    tokens: &'a [Token<'a>],
) -> Result<Part<'a, Counted<StmtTree>>, Halt>
    requires { length tokens.now < 2 ^ 24 }
    ensures reads { HasNoHead (map view tokens.now) → Parses ShowsStmt (grammar.States (is_type reader.now.names.now))
        (map view tokens.now) result }
    ensures shorter { IfOk result (IsPast (length tokens.now)) }
{
    let Some((line, inside)) = at_mark(tokens, Mark::LeftBrace) else {
        return simple(reader, tokens);
    };
    let all = parts(reader, inside)?;
    Ok(Part {
        value: block_of(line, all.value),
        rest: all.rest,
    })
}

/// The parts of a block, up to and with its closing brace.
#[cycle(statements)]
fn parts<'a>(
    reader: &Reader<'_>,
    tokens: &'a [Token<'a>],
) -> Result<Part<'a, Counted<Vec<BlockItemTree>>>, Halt>
    requires { length tokens.now < 2 ^ 24 }
    ensures reads { Parses ShowsParts (grammar.Parts (is_type reader.now.names.now)) (map view tokens.now) result }
    ensures shorter { IfOk result (IsPast (length tokens.now)) }
{
    let mut found = Counted::new(reader.alloc);
    let mut rest = (tokens,).0;
    'parts: loop {
        if let Some((_, end)) = at_mark(rest, Mark::RightBrace) {
            return Ok(Part {
                value: found,
                rest: end,
            });
        }
        let one = part(reader, rest)?;
        found = found.longer(one.value)?;
        rest = one.rest;
    }
}

/// A declaration, statements by byte order, or a statement.
#[cycle(statements)]
fn part<'a>(
    reader: &Reader<'_>,
    tokens: &'a [Token<'a>],
) -> Result<Part<'a, Counted<BlockItemTree>>, Halt>
    requires { length tokens.now < 2 ^ 24 }
    ensures reads { Parses ShowsPart (grammar.OnePart (is_type reader.now.names.now)) (map view tokens.now) result }
    ensures shorter { IfOk result (IsPast (length tokens.now)) }
{
    if begins_type(reader.names, tokens) {
        let read = declaration(reader, tokens)?;
        return Ok(Part {
            value: declares(read.value),
            rest: read.rest,
        });
    }
    let Some((line, order, inside)) = at_if(tokens) else {
        let one = statement(reader, tokens)?;
        return Ok(Part {
            value: states(one.value),
            rest: one.rest,
        });
    };
    let then = arm(reader, inside)?;
    let other = other_arm(reader, then.rest)?;
    let rest = other.rest;
    match other.value {
        Some(otherwise) => Ok(Part {
            value: two_arms(line, order, then.value, otherwise),
            rest,
        }),
        None => Ok(Part {
            value: one_arm(line, order, then.value),
            rest,
        }),
    }
}

/// The statements before an `#else` or `#endif`.
#[cycle(statements)]
fn arm<'a>(
    reader: &Reader<'_>,
    tokens: &'a [Token<'a>],
) -> Result<Part<'a, Counted<Vec<StmtTree>>>, Halt>
    requires { length tokens.now < 2 ^ 24 }
    ensures reads { Parses ShowsStmts (grammar.Statements (is_type reader.now.names.now)) (map view tokens.now) result }
    ensures shorter { IfOk result (IsWithin (length tokens.now)) }
{
    let mut found = Counted::new(reader.alloc);
    let mut rest = (tokens,).0;
    'statements: loop {
        if ends_arm(rest) {
            return Ok(Part { value: found, rest });
        }
        let one = statement(reader, rest)?;
        found = found.longer(one.value)?;
        rest = one.rest;
    }
}

/// What stands from an `#else` on, if there is one, up to and with the `#endif`.
#[cycle(statements)]
fn other_arm<'a>(
    reader: &Reader<'_>,
    tokens: &'a [Token<'a>],
) -> Result<Part<'a, Option<Counted<Vec<StmtTree>>>>, Halt>
    requires { length tokens.now < 2 ^ 24 }
    ensures reads { Parses ShowsOther (grammar.OtherArm (is_type reader.now.names.now)) (map view tokens.now) result }
    ensures shorter { IfOk result (IsPast (length tokens.now)) }
{
    if let Some((_, rest)) = at_end_if(tokens) {
        return Ok(Part { value: None, rest });
    }
    let Some((_, inside)) = at_else(tokens) else {
        return Err(Halt::Refused(reader.stopped(tokens)));
    };
    let otherwise = arm(reader, inside)?;
    let Some((_, end)) = at_end_if(otherwise.rest) else {
        return Err(Halt::Refused(reader.stopped(otherwise.rest)));
    };
    Ok(Part {
        value: Some(otherwise.value),
        rest: end,
    })
}
