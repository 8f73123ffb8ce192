//! Heads that wait while the statement inside them is read: `if ( e )`, `while ( e )`, `for ( .. )`, `do`.

ghost use Rattle.std.specs.Prelude.{◌≡◌, ◌<◌, ◌^◌, ◌∷◌, ℕ, Bool, length, map, reverse, List, IfOk};
ghost use Rattle.ep_ast.specs.Token.{Tok};
ghost use Rattle.ep_lexer.specs.Tokens.{view};
ghost use Rattle.ep_reading.specs.Names.{is_type};
ghost use Rattle.ep_reading.specs.Answer.{IsWithin, after};
ghost use Rattle.ep_statement_heads.specs.Around.{Stands, Closes, Completes, ParsesState, ParsesHead, IsPastHead};
ghost use Rattle.ep_statement_heads.specs.declared.frames.Frame.{Frame as Pending};
ghost use Rattle.ep_statement_heads.specs.declared.frames.Frame.TheVariants as frames;

use ep_ast::{ExprTree, Halt, HeadingTree, StmtTree, Word};
use ep_branches_and_loops::{do_loop, for_loop, if_else, if_then, while_loop};
use ep_lexer::Token;
use ep_reading::{Head, Measured, Part, Reader, at_word, first_of};
use ep_simple_statements::{do_end, for_heading, in_parens};
use ep_statement_parts::Counted;
use std::alloc::{AllocError, Global};

/// A head with its line, and what was read of it.
#[derive(Debug, Drop)]
pub enum Frame {
    If(u32, Measured<ExprTree>),
    Else(u32, Measured<ExprTree>, Box<Counted<StmtTree>>),
    While(u32, Measured<ExprTree>),
    For(u32, Box<Measured<HeadingTree>>),
    Do(u32),
}

/// A head with its statement inside it, or one that waits for what stands behind its `else`.
#[derive(Debug, Drop)]
pub enum Closed {
    More(Counted<StmtTree>),
    Else(Frame),
}

/// A whole statement, or the heads that wait for what stands behind an `else`.
#[derive(Debug, Drop)]
pub enum Completed {
    Whole(Counted<StmtTree>),
    Else(Vec<Frame>),
}

/// The head that begins here, if one does, and what comes after it.
pub fn opening<'a>(
    reader: &Reader<'_>,
    tokens: &'a [Token<'a>],
) -> Result<Option<Part<'a, Frame>>, Halt>
    requires { length tokens.now < 2 ^ 24 }
    ensures reads { ParsesHead (is_type reader.now.names.now) (map view tokens.now) result }
    ensures shorter { IfOk result (IsPastHead (length tokens.now)) }
{
    match first_of(tokens) {
        Head::Word(line, word, rest) => match word {
            Word::If => {
                let test = in_parens(reader, line, rest)?;
                Ok(Some(Part {
                    value: Frame::If(line, test.value),
                    rest: test.rest,
                }))
            }
            Word::While => {
                let test = in_parens(reader, line, rest)?;
                Ok(Some(Part {
                    value: Frame::While(line, test.value),
                    rest: test.rest,
                }))
            }
            Word::For => {
                let heading = for_heading(reader, line, rest)?;
                let boxed = Box::new(reader.alloc, heading.value)?;
                Ok(Some(Part {
                    value: Frame::For(line, boxed),
                    rest: heading.rest,
                }))
            }
            Word::Do => Ok(Some(Part {
                value: Frame::Do(line),
                rest,
            })),
            _ => Ok(None),
        },
        Head::Name(_, _, _) => Ok(None),
        Head::Number(_, _, _) => Ok(None),
        Head::Mark(_, _, _) => Ok(None),
        Head::Other => Ok(None),
    }
}

/// An `if` with the statement inside it, or with its `else`, where these tokens come after that statement.
fn close_if<'a>(
    alloc: Global,
    line: u32,
    test: Measured<ExprTree>,
    inner: Counted<StmtTree>,
    tokens: &'a [Token<'a>],
) -> Result<Part<'a, Closed>, AllocError>
    ensures reads { (is_type : List ℕ → Bool) → (xs : List Tok) → (ks : List Pending)
        → Stands is_type xs (frames.If line test ∷ ks) inner (map view tokens.now)
        → IfOk result (λ p. Closes is_type xs ks p.value (after p)) }
    ensures shorter { IfOk result (IsWithin (length tokens.now)) }
{
    match at_word(tokens, Word::Else) {
        Some((_, rest)) => {
            let then = Box::new(alloc, inner)?;
            Ok(Part {
                value: Closed::Else(Frame::Else(line, test, then)),
                rest,
            })
        }
        None => {
            let whole = if_then(alloc, line, test, inner)?;
            Ok(Part {
                value: Closed::More(whole),
                rest: tokens,
            })
        }
    }
}

/// What the head is with the statement inside it, where these tokens come after that.
fn close<'a>(
    reader: &Reader<'_>,
    frame: Frame,
    inner: Counted<StmtTree>,
    tokens: &'a [Token<'a>],
) -> Result<Part<'a, Closed>, Halt>
    requires { length tokens.now < 2 ^ 24 }
    ensures reads { (xs : List Tok) → (ks : List Pending) → Stands (is_type reader.now.names.now) xs (frame ∷ ks) inner
        (map view tokens.now)
        → ParsesState (Closes (is_type reader.now.names.now) xs ks) (is_type reader.now.names.now) xs result }
    ensures shorter { IfOk result (IsWithin (length tokens.now)) }
{
    let alloc = reader.alloc;
    let (whole, rest) = match frame {
        Frame::If(line, test) => return Ok(close_if(alloc, line, test, inner, tokens)?),
        Frame::Else(line, test, then) => {
            let whole = if_else(alloc, line, test, Box::into_inner(then), inner)?;
            (whole, tokens)
        }
        Frame::While(line, test) => {
            let whole = while_loop(alloc, line, test, inner)?;
            (whole, tokens)
        }
        Frame::For(line, heading) => {
            let whole = for_loop(alloc, line, Box::into_inner(heading), inner)?;
            (whole, tokens)
        }
        Frame::Do(line) => {
            let test = do_end(reader, line, tokens)?;
            let whole = do_loop(alloc, line, inner, test.value)?;
            (whole, test.rest)
        }
    };
    Ok(Part {
        value: Closed::More(whole),
        rest,
    })
}

/// What the statement completes of the heads that wait, the last of which is innermost.
pub fn complete<'a>(
    reader: &Reader<'_>,
    frames: Vec<Frame>,
    inner: Counted<StmtTree>,
    tokens: &'a [Token<'a>],
) -> Result<Part<'a, Completed>, Halt>
    requires { length tokens.now < 2 ^ 24 }
    ensures reads { (xs : List Tok) → Stands (is_type reader.now.names.now) xs (reverse frames.items) inner
        (map view tokens.now)
        → ParsesState (Completes (is_type reader.now.names.now) xs) (is_type reader.now.names.now) xs result }
    ensures shorter { IfOk result (IsWithin (length tokens.now)) }
{
    let mut left = frames;
    let mut found = inner;
    // The variable has a lifetime of its own.
    let mut rest = (tokens,).0;
    'frames: while let Some(frame) = left.pop() {
        let closed = close(reader, frame, found, rest)?;
        let after = closed.rest;
        match closed.value {
            Closed::More(longer) => {
                found = longer;
                rest = after;
            }
            Closed::Else(head) => {
                left.push(head)?;
                return Ok(Part {
                    value: Completed::Else(left),
                    rest: after,
                });
            }
        }
    }
    Ok(Part {
        value: Completed::Whole(found),
        rest,
    })
}
