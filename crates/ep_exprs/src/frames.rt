//! What is pending while an expression is read.

ghost use Rattle.std.specs.Prelude.{◌≡◌, ◌<◌, ◌∷◌, length, map, reverse, List, ℕ, Bool, IfOk};
ghost use Rattle.ep_ast.specs.Token.{Tok};
ghost use Rattle.ep_ast.specs.Expression.{Expr};
ghost use Rattle.ep_lexer.specs.Tokens.{view};
ghost use Rattle.ep_reading.specs.Names.{is_type};
ghost use Rattle.ep_expression_trees.specs.BoundedTrees.{Shows, wrap_all};
ghost use Rattle.ep_exprs.specs.Pending.{IsBefore, Waits, Value, Combines, Completes, IsShorter};
ghost use Rattle.ep_exprs.specs.declared.frames.Frame.{Frame as Pending};

use crate::look::{at_cast, is_prefix, is_step};
use ep_ast::{Mark, Word};
use ep_expression_trees::{BoundedTree, Prefix, assign, conditional, prefixed};
use ep_lexer::Token;
use ep_reading::{Head, Part, TypeNames, first_of};
use std::alloc::{AllocError, Global};

/// What stands first before an operand, with its line and what comes after it; for the types what comes after `(`.
#[derive(Clone, Copy)]
pub enum Before<'a> {
    Operator(u32, Mark, &'a [Token<'a>]),
    Step(u32, Mark, &'a [Token<'a>]),
    Sizeof(u32, &'a [Token<'a>]),
    SizeofType(u32, &'a [Token<'a>]),
    Cast(u32, &'a [Token<'a>]),
    Nothing,
}

/// What stands first before an operand.
pub fn prefix_at<'a>(names: &TypeNames, tokens: &'a [Token<'a>]) -> Before<'a>
    ensures value { IsBefore (is_type names.now) result (map view tokens.now) }
    ensures shorter { IsShorter result (length tokens.now) }
{
    if let Some((line, inside)) = at_cast(names, tokens) {
        return Before::Cast(line, inside);
    }
    match first_of(tokens) {
        Head::Mark(line, mark, rest) => if is_prefix(mark) {
            Before::Operator(line, mark, rest)
        } else if is_step(mark) {
            Before::Step(line, mark, rest)
        } else {
            Before::Nothing
        },
        Head::Word(line, word, rest) => if word == Word::Sizeof {
            match at_cast(names, rest) {
                Some((_, inside)) => Before::SizeofType(line, inside),
                None => Before::Sizeof(line, rest),
            }
        } else {
            Before::Nothing
        },
        _ => Before::Nothing,
    }
}

/// The operand under these prefixes, of which the first is outermost.
fn wrapped(
    alloc: Global,
    prefixes: Vec<Prefix>,
    operand: BoundedTree,
) -> Result<BoundedTree, AllocError>
    ensures { (t : Expr) → Shows operand t → IfOk result (λ k. Shows k (wrap_all prefixes.items t)) }
{
    let mut left = prefixes;
    let mut found = operand;
    while let Some(prefix) = left.pop() {
        found = prefixed(alloc, prefix, found)?;
    }
    Ok(found)
}

/// The same, with what comes after it.
pub fn wrapped_before<'a>(
    alloc: Global,
    prefixes: Vec<Prefix>,
    operand: BoundedTree,
    rest: &'a [Token<'a>],
) -> Result<Part<'a, BoundedTree>, AllocError>
    ensures value { (t : Expr) → Shows operand t → IfOk result (λ p. Shows p.value (wrap_all prefixes.items t)) }
    ensures rest { IfOk result (λ p. p.rest.now ≡ rest.now) }
{
    let value = wrapped(alloc, prefixes, operand)?;
    Ok(Part { value, rest })
}

/// What waits for more: a place and its assignment mark, a test before `?`, or a test and the part before `:`.
#[derive(Debug, Drop)]
pub enum Frame {
    Assign(BoundedTree, Mark),
    Question(BoundedTree),
    Colon(BoundedTree, BoundedTree),
}

/// A longer value, or a test and the part after its `?`.
#[derive(Debug, Drop)]
pub enum Combined {
    More(BoundedTree),
    Asks(BoundedTree, BoundedTree),
}

/// The whole value, or what still waits, a test and the part after its `?`.
#[derive(Debug, Drop)]
pub enum Completed {
    Whole(BoundedTree),
    Asks(Vec<Frame>, BoundedTree, BoundedTree),
}

fn combine(alloc: Global, frame: Frame, value: BoundedTree) -> Result<Combined, AllocError>
    ensures { (N : List ℕ → Bool) → (xs zs : List Tok) → (fs : List Pending) → Value N xs (frame ∷ fs) value zs
        → IfOk result (Combines N xs fs zs) }
{
    match frame {
        Frame::Assign(place, mark) => Ok(Combined::More(assign(alloc, mark, place, value)?)),
        Frame::Question(test) => Ok(Combined::Asks(test, value)),
        Frame::Colon(test, yes) => Ok(Combined::More(conditional(alloc, test, yes, value)?)),
    }
}

/// What the value completes of what waits, the last of which is innermost.
pub fn complete(
    alloc: Global,
    frames: Vec<Frame>,
    value: BoundedTree,
) -> Result<Completed, AllocError>
    ensures { (N : List ℕ → Bool) → (xs zs : List Tok) → Value N xs (reverse frames.items) value zs
        → IfOk result (Completes N xs zs) }
{
    let mut left = frames;
    let mut found = value;
    while let Some(frame) = left.pop() {
        match combine(alloc, frame, found)? {
            Combined::More(longer) => found = longer,
            Combined::Asks(test, yes) => return Ok(Completed::Asks(left, test, yes)),
        }
    }
    Ok(Completed::Whole(found))
}
