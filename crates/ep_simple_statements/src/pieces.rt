//! Reading the pieces of statements in which no statement stands. The line is that of the statement.

ghost use Rattle.std.specs.Prelude.{◌≡◌, ◌<◌, ◌^◌, length, map, IfOk};
ghost use Rattle.ep_ast.specs.Mark.{mark_number};
ghost use Rattle.ep_ast.specs.StatementGrammar as grammar;
ghost use Rattle.ep_lexer.specs.Tokens.{view};
ghost use Rattle.ep_expression_trees.specs.BoundedTrees as expressions;
ghost use Rattle.ep_reading.specs.Names.{is_type};
ghost use Rattle.ep_reading.specs.Answer.{Parses, IsPast};
ghost use Rattle.ep_statement_parts.specs.View.{ShowsTest, ShowsGiven, ShowsFirst, ShowsHeading};
ghost use Rattle.ep_simple_statements.specs.Piece.{CanClose, ExprThen, DoEnd, Headings};

use ep_ast::{ExprTree, ForInitTree, Halt, HeadingTree, Mark, Word};
use ep_declarations::declaration;
use ep_exprs::{BoundedTree, read_expression};
use ep_lexer::Token;
use ep_reading::{Measured, Part, Reader, at_mark, at_word};
use ep_statement_parts::{first_declares, first_evaluates, given_of, heading_from, test_of};
use ep_type_names::begins_type;

/// An expression and this mark behind it, `;` or `)`.
fn expression_then<'a>(
    reader: &Reader<'_>,
    mark: Mark,
    tokens: &'a [Token<'a>],
) -> Result<Part<'a, BoundedTree>, Halt>
    requires few { length tokens.now < 2 ^ 24 }
    requires closes { CanClose (mark_number mark) }
    ensures reads { Parses expressions.Shows (ExprThen (is_type reader.now.names.now) (mark_number mark))
        (map view tokens.now)
        result }
    ensures shorter { IfOk result (IsPast (length tokens.now)) }
{
    let read = read_expression(reader, tokens)?;
    match at_mark(read.rest, mark) {
        Some((_, after)) => Ok(Part {
            value: read.value,
            rest: after,
        }),
        None => Err(Halt::Refused(reader.stopped(read.rest))),
    }
}

/// An expression or none, up to and with this mark, `;` or `)`.
pub fn up_to<'a>(
    reader: &Reader<'_>,
    line: u32,
    mark: Mark,
    tokens: &'a [Token<'a>],
) -> Result<Part<'a, Measured<Option<ExprTree>>>, Halt>
    requires few { length tokens.now < 2 ^ 24 }
    requires closes { CanClose (mark_number mark) }
    ensures reads { Parses (ShowsGiven line) (grammar.UpTo (is_type reader.now.names.now) (mark_number mark))
        (map view tokens.now)
        result }
    ensures shorter { IfOk result (IsPast (length tokens.now)) }
{
    if let Some((_, after)) = at_mark(tokens, mark) {
        return Ok(Part {
            value: Measured::Fits(None),
            rest: after,
        });
    }
    let read = expression_then(reader, mark, tokens)?;
    Ok(Part {
        value: given_of(line, read.value),
        rest: read.rest,
    })
}

/// An expression in parentheses.
pub fn in_parens<'a>(
    reader: &Reader<'_>,
    line: u32,
    tokens: &'a [Token<'a>],
) -> Result<Part<'a, Measured<ExprTree>>, Halt>
    requires { length tokens.now < 2 ^ 24 }
    ensures reads { Parses (ShowsTest line) (grammar.InParens (is_type reader.now.names.now)) (map view tokens.now)
        result }
    ensures shorter { IfOk result (IsPast (length tokens.now)) }
{
    let Some((_, inside)) = at_mark(tokens, Mark::LeftParen) else {
        return Err(Halt::Refused(reader.stopped(tokens)));
    };
    let read = expression_then(reader, Mark::RightParen, inside)?;
    Ok(Part {
        value: test_of(line, read.value),
        rest: read.rest,
    })
}

/// The end of a `do` loop, from its `while` on.
pub fn do_end<'a>(
    reader: &Reader<'_>,
    line: u32,
    tokens: &'a [Token<'a>],
) -> Result<Part<'a, Measured<ExprTree>>, Halt>
    requires { length tokens.now < 2 ^ 24 }
    ensures reads { Parses (ShowsTest line) (DoEnd (is_type reader.now.names.now)) (map view tokens.now) result }
    ensures shorter { IfOk result (IsPast (length tokens.now)) }
{
    let Some((_, inside)) = at_word(tokens, Word::While) else {
        return Err(Halt::Refused(reader.stopped(tokens)));
    };
    let test = in_parens(reader, line, inside)?;
    let Some((_, end)) = at_mark(test.rest, Mark::Semicolon) else {
        return Err(Halt::Refused(reader.stopped(test.rest)));
    };
    Ok(Part {
        value: test.value,
        rest: end,
    })
}

/// The first part of a `for`, with its semicolon.
fn first_part<'a>(
    reader: &Reader<'_>,
    line: u32,
    tokens: &'a [Token<'a>],
) -> Result<Part<'a, Measured<ForInitTree>>, Halt>
    requires { length tokens.now < 2 ^ 24 }
    ensures reads { Parses (ShowsFirst line) (grammar.Firsts (is_type reader.now.names.now)) (map view tokens.now)
        result }
    ensures shorter { IfOk result (IsPast (length tokens.now)) }
{
    if begins_type(reader.names, tokens) {
        let read = declaration(reader, tokens)?;
        Ok(Part {
            value: first_declares(read.value),
            rest: read.rest,
        })
    } else {
        let given = up_to(reader, line, Mark::Semicolon, tokens)?;
        Ok(Part {
            value: first_evaluates(given.value),
            rest: given.rest,
        })
    }
}

/// What stands behind a `for`, with its parentheses.
pub fn for_heading<'a>(
    reader: &Reader<'_>,
    line: u32,
    tokens: &'a [Token<'a>],
) -> Result<Part<'a, Measured<HeadingTree>>, Halt>
    requires { length tokens.now < 2 ^ 24 }
    ensures reads { Parses (ShowsHeading line) (Headings (is_type reader.now.names.now)) (map view tokens.now) result }
    ensures shorter { IfOk result (IsPast (length tokens.now)) }
{
    let Some((_, inside)) = at_mark(tokens, Mark::LeftParen) else {
        return Err(Halt::Refused(reader.stopped(tokens)));
    };
    let first = first_part(reader, line, inside)?;
    let test = up_to(reader, line, Mark::Semicolon, first.rest)?;
    let next = up_to(reader, line, Mark::RightParen, test.rest)?;
    Ok(Part {
        value: heading_from(first.value, test.value, next.value),
        rest: next.rest,
    })
}
