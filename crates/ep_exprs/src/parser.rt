//! Recursive descent, where brackets alone recurse: prefixes, assignments and conditionals wait in lists. How many
//! brackets are open is counted before anything is read, so no limit is passed on here.

ghost use Rattle.std.specs.Prelude.{◌≡◌, ◌<◌, ◌≤◌, ◌+◌, ◌^◌, length, map, IfOk, IfSome, List, ◌∷◌, ℕ, true};
ghost use Rattle.ep_ast.specs.Token.{Tok, mark};
ghost use Rattle.ep_ast.specs.Mark.{dot, arrow};
ghost use Rattle.ep_ast.specs.Grammar.{Arguments as Argued, IsSuffix};
ghost use Rattle.ep_ast.specs.Grammar as rule;
ghost use Rattle.ep_lexer.specs.Tokens.{view};
ghost use Rattle.ep_reading.specs.Names.{is_type};
ghost use Rattle.ep_reading.specs.Answer.{Parses, IsPast, IsWithin};
ghost use Rattle.ep_expression_trees.specs.BoundedTrees.{ShowsAll, ShowsSuffix};
ghost use Rattle.ep_exprs.specs.Parsed.{IsRead, Keeps, Assigned};

use crate::frames::{Before, Completed, Frame, complete, prefix_at, wrapped_before};
use crate::look::{at_assignment, at_operator, begins_cast, begins_operator, begins_suffix};
use ep_ast::{Halt, Mark};
use ep_expression_trees::{
    Arguments, BoundedTree, Prefix, Suffix, binary as joined, name, number, size_of, suffixed,
};
use ep_lexer::Token;
use ep_reading::{Head, Part, Reader, TypeNames, at_mark, at_name, first_of};
use ep_type_names::type_name;

/// The assignment mark behind the first operand and what comes after it, where an assignment may stand.
fn assigned<'a>(
    names: &TypeNames,
    third_part: bool,
    tokens: &[Token<'_>],
    after: &'a [Token<'a>],
) -> Option<Part<'a, Mark>>
    ensures value { Assigned (is_type names.now) third_part (map view tokens.now) (map view after.now) result }
    ensures shorter { IfSome result (IsPast (length after.now)) }
{
    if third_part {
        return None;
    }
    if begins_cast(names, tokens) {
        return None;
    }
    let (_, mark, more) = at_assignment(after)?;
    Some(Part {
        value: mark,
        rest: more,
    })
}

/// The expression that begins here, and what comes after it.
#[cycle(parser)]
pub fn read_expression<'a>(
    reader: &Reader<'_>,
    tokens: &'a [Token<'a>],
) -> Result<Part<'a, BoundedTree>, Halt>
    requires { length tokens.now < 2 ^ 24 }
    ensures reads { Keeps (is_type reader.now.names.now) rule.expr (map view tokens.now) result }
    ensures shorter { IfOk result (IsPast (length tokens.now)) }
{
    let mut frames = Vec::new(reader.alloc);
    let mut third_part = false;
    // The variable has a lifetime of its own.
    let mut rest = (tokens,).0;
    'frames: loop {
        let first = operand(reader, rest)?;
        if let Some(mark) = assigned(reader.names, third_part, rest, first.rest) {
            frames.push(Frame::Assign(first.value, mark.value))?;
            third_part = false;
            rest = mark.rest;
        } else {
            let test = levels(reader, 1, first.value, first.rest)?;
            if let Some((_, more)) = at_mark(test.rest, Mark::Question) {
                frames.push(Frame::Question(test.value))?;
                third_part = false;
                rest = more;
            } else {
                match complete(reader.alloc, frames, test.value)? {
                    Completed::Whole(value) => return Ok(Part {
                        value,
                        rest: test.rest,
                    }),
                    Completed::Asks(left, asked, yes) => {
                        let Some((_, more)) = at_mark(test.rest, Mark::Colon) else {
                            return Err(Halt::Refused(reader.stopped(test.rest)));
                        };
                        frames = left;
                        frames.push(Frame::Colon(asked, yes))?;
                        third_part = true;
                        rest = more;
                    }
                }
            }
        }
    }
}

/// The operand of operators of a level and what comes after it, with all operators of tighter levels.
#[cycle(parser)]
fn tighter<'a>(
    reader: &Reader<'_>,
    level: u8,
    tokens: &'a [Token<'a>],
) -> Result<Part<'a, BoundedTree>, Halt>
    requires few { length tokens.now < 2 ^ 24 }
    requires level { (1 ≤ level) × (level ≤ 11) }
    ensures reads { Keeps (is_type reader.now.names.now) (rule.bin level) (map view tokens.now) result }
    ensures shorter { IfOk result (IsPast (length tokens.now)) }
{
    let first = operand(reader, tokens)?;
    levels(reader, level, first.value, first.rest)
}

/// Goes on with operators of this level and tighter ones after an operand.
#[cycle(parser)]
fn levels<'a>(
    reader: &Reader<'_>,
    least: u8,
    first: BoundedTree,
    tokens: &'a [Token<'a>],
) -> Result<Part<'a, BoundedTree>, Halt>
    requires few { length tokens.now < 2 ^ 24 }
    requires level { (1 ≤ least) × (least ≤ 11) }
    ensures reads { (xs : List Tok) → IsRead (is_type reader.now.names.now) (rule.bin 11) xs first (map view tokens.now)
        → Keeps (is_type reader.now.names.now) (rule.bin least) xs result }
    ensures shorter { IfOk result (IsWithin (length tokens.now)) }
{
    let mut left = first;
    let mut rest = (tokens,).0;
    let mut level = 11;
    while level > least {
        level -= 1;
        if !begins_operator(rest, level) {
            continue;
        }
        let longer = operators(reader, level, left, rest)?;
        left = longer.value;
        rest = longer.rest;
    }
    Ok(Part { value: left, rest })
}

/// Goes on with operators of this level after a tighter operand.
#[cycle(parser)]
fn operators<'a>(
    reader: &Reader<'_>,
    level: u8,
    first: BoundedTree,
    tokens: &'a [Token<'a>],
) -> Result<Part<'a, BoundedTree>, Halt>
    requires few { length tokens.now < 2 ^ 24 }
    requires level { (1 ≤ level) × (level < 11) }
    ensures reads { (xs : List Tok) → IsRead (is_type reader.now.names.now) (rule.bin (level + 1)) xs first
        (map view tokens.now)
        → Keeps (is_type reader.now.names.now) (rule.bin level) xs result }
    ensures shorter { IfOk result (IsWithin (length tokens.now)) }
{
    let mut left = first;
    let mut rest = (tokens,).0;
    while let Some((_, mark, more)) = at_operator(rest, level) {
        let right = tighter(reader, level + 1, more)?;
        left = joined(reader.alloc, mark, left, right.value)?;
        rest = right.rest;
    }
    Ok(Part { value: left, rest })
}

/// An operand of binary operators: prefixes, casts among them, and a postfix expression or a type's `sizeof`.
#[cycle(parser)]
fn operand<'a>(reader: &Reader<'_>, tokens: &'a [Token<'a>]) -> Result<Part<'a, BoundedTree>, Halt>
    requires { length tokens.now < 2 ^ 24 }
    ensures reads { Keeps (is_type reader.now.names.now) rule.cast (map view tokens.now) result }
    ensures shorter { IfOk result (IsPast (length tokens.now)) }
{
    match prefix_at(reader.names, tokens) {
        Before::Nothing => postfix(reader, tokens),
        _ => prefixed_operand(reader, tokens),
    }
}

/// An operand that begins with a prefix: all prefixes are gathered before what they stand before.
#[cycle(parser)]
fn prefixed_operand<'a>(
    reader: &Reader<'_>,
    tokens: &'a [Token<'a>],
) -> Result<Part<'a, BoundedTree>, Halt>
    requires { length tokens.now < 2 ^ 24 }
    ensures reads { Keeps (is_type reader.now.names.now) rule.cast (map view tokens.now) result }
    ensures shorter { IfOk result (IsPast (length tokens.now)) }
{
    let mut prefixes = Vec::new(reader.alloc);
    // no cast stands behind `++`, `--` and `sizeof`
    let mut bare = false;
    let mut rest = (tokens,).0;
    'prefixes: loop {
        match prefix_at(reader.names, rest) {
            Before::Operator(line, mark, more) => {
                prefixes.push(Prefix::Operator(line, mark))?;
                bare = false;
                rest = more;
            }
            Before::Step(line, mark, more) => {
                prefixes.push(Prefix::Step(line, mark))?;
                bare = true;
                rest = more;
            }
            Before::Sizeof(line, more) => {
                prefixes.push(Prefix::Sizeof(line))?;
                bare = true;
                rest = more;
            }
            Before::Cast(line, inside) => {
                if bare {
                    return Err(Halt::Refused(reader.stopped(inside)));
                }
                let to = type_name(reader, inside)?;
                prefixes.push(Prefix::Typed(line, to.value))?;
                rest = to.rest;
            }
            Before::SizeofType(line, inside) => {
                let of = type_name(reader, inside)?;
                let size = size_of(line, of.value);
                return Ok(wrapped_before(reader.alloc, prefixes, size, of.rest)?);
            }
            Before::Nothing => {
                let inner = postfix(reader, rest)?;
                return Ok(wrapped_before(reader.alloc, prefixes, inner.value, inner.rest)?);
            }
        }
    }
}

#[cycle(parser)]
fn postfix<'a>(reader: &Reader<'_>, tokens: &'a [Token<'a>]) -> Result<Part<'a, BoundedTree>, Halt>
    requires { length tokens.now < 2 ^ 24 }
    ensures reads { Keeps (is_type reader.now.names.now) rule.postfix (map view tokens.now) result }
    ensures shorter { IfOk result (IsPast (length tokens.now)) }
{
    let first = primary(reader, tokens)?;
    let mut left = first.value;
    let mut rest = first.rest;
    'marks: loop {
        if !begins_suffix(rest) {
            return Ok(Part { value: left, rest });
        }
        let behind = suffix(reader, rest)?;
        left = suffixed(reader.alloc, left, behind.value)?;
        rest = behind.rest;
    }
}

/// The member of what stands before a dot.
fn behind_dot<'a>(reader: &Reader<'_>, tokens: &'a [Token<'a>]) -> Result<Part<'a, Suffix>, Halt>
    ensures reads { (l c : ℕ) → c ≡ dot → Parses ShowsSuffix (IsSuffix (is_type reader.now.names.now))
        (mark l c ∷ map view tokens.now) result }
    ensures shorter { IfOk result (IsPast (length tokens.now)) }
{
    let Some((_, text, more)) = at_name(tokens) else {
        return Err(Halt::Refused(reader.stopped(tokens)));
    };
    Ok(Part {
        value: Suffix::Of(Vec::from_slice(reader.alloc, text)?),
        rest: more,
    })
}

/// The member of that to which what stands before an arrow points.
fn behind_arrow<'a>(reader: &Reader<'_>, tokens: &'a [Token<'a>]) -> Result<Part<'a, Suffix>, Halt>
    ensures reads { (l c : ℕ) → c ≡ arrow → Parses ShowsSuffix (IsSuffix (is_type reader.now.names.now))
        (mark l c ∷ map view tokens.now) result }
    ensures shorter { IfOk result (IsPast (length tokens.now)) }
{
    let Some((_, text, more)) = at_name(tokens) else {
        return Err(Halt::Refused(reader.stopped(tokens)));
    };
    Ok(Part {
        value: Suffix::Through(Vec::from_slice(reader.alloc, text)?),
        rest: more,
    })
}

/// One mark behind an operand, with all that belongs to it.
#[cycle(parser)]
fn suffix<'a>(reader: &Reader<'_>, tokens: &'a [Token<'a>]) -> Result<Part<'a, Suffix>, Halt>
    requires { length tokens.now < 2 ^ 24 }
    ensures reads { Parses ShowsSuffix (IsSuffix (is_type reader.now.names.now)) (map view tokens.now) result }
    ensures shorter { IfOk result (IsPast (length tokens.now)) }
{
    let Head::Mark(_, mark, rest) = first_of(tokens) else {
        return Err(Halt::Refused(reader.stopped(tokens)));
    };
    match mark {
        Mark::LeftBracket => {
            let at = read_expression(reader, rest)?;
            let Some((_, more)) = at_mark(at.rest, Mark::RightBracket) else {
                return Err(Halt::Refused(reader.stopped(at.rest)));
            };
            Ok(Part {
                value: Suffix::At(at.value),
                rest: more,
            })
        }
        Mark::LeftParen => {
            let all = arguments(reader, rest)?;
            Ok(Part {
                value: Suffix::With(all.value),
                rest: all.rest,
            })
        }
        Mark::Dot => behind_dot(reader, rest),
        Mark::Arrow => behind_arrow(reader, rest),
        Mark::PlusPlus => Ok(Part {
            value: Suffix::Increment,
            rest,
        }),
        Mark::MinusMinus => Ok(Part {
            value: Suffix::Decrement,
            rest,
        }),
        _ => Err(Halt::Refused(reader.stopped(tokens))),
    }
}

/// From behind the opening parenthesis to behind the closing one.
#[cycle(parser)]
fn arguments<'a>(reader: &Reader<'_>, tokens: &'a [Token<'a>]) -> Result<Part<'a, Arguments>, Halt>
    requires { length tokens.now < 2 ^ 24 }
    ensures reads { Parses ShowsAll (Argued (is_type reader.now.names.now)) (map view tokens.now) result }
    ensures shorter { IfOk result (IsPast (length tokens.now)) }
{
    let mut found = Arguments::new(reader.alloc);
    if let Some((_, after)) = at_mark(tokens, Mark::RightParen) {
        return Ok(Part {
            value: found,
            rest: after,
        });
    }
    let mut rest = (tokens,).0;
    'items: loop {
        let item = read_expression(reader, rest)?;
        found = found.with(item.value)?;
        if let Some((_, end)) = at_mark(item.rest, Mark::RightParen) {
            return Ok(Part {
                value: found,
                rest: end,
            });
        }
        let Some((_, more)) = at_mark(item.rest, Mark::Comma) else {
            return Err(Halt::Refused(reader.stopped(item.rest)));
        };
        rest = more;
    }
}

#[cycle(parser)]
fn primary<'a>(reader: &Reader<'_>, tokens: &'a [Token<'a>]) -> Result<Part<'a, BoundedTree>, Halt>
    requires { length tokens.now < 2 ^ 24 }
    ensures reads { Keeps (is_type reader.now.names.now) rule.primary (map view tokens.now) result }
    ensures shorter { IfOk result (IsPast (length tokens.now)) }
{
    match first_of(tokens) {
        Head::Name(line, text, rest) => {
            if reader.names.has(text) {
                return Err(Halt::Refused(reader.stopped(tokens)));
            }
            Ok(Part {
                value: name(reader.alloc, line, text)?,
                rest,
            })
        }
        Head::Number(line, literal, rest) => Ok(Part {
            value: number(line, literal),
            rest,
        }),
        Head::Mark(_, mark, rest) => {
            if mark != Mark::LeftParen {
                return Err(Halt::Refused(reader.stopped(tokens)));
            }
            let inner = read_expression(reader, rest)?;
            let Some((_, more)) = at_mark(inner.rest, Mark::RightParen) else {
                return Err(Halt::Refused(reader.stopped(inner.rest)));
            };
            Ok(Part {
                value: inner.value,
                rest: more,
            })
        }
        Head::Word(_, _, _) => Err(Halt::Refused(reader.stopped(tokens))),
        Head::Other => Err(Halt::Refused(reader.stopped(tokens))),
    }
}
