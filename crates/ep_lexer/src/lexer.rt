//! The tokens of a source.

ghost use Rattle.std.specs.Prelude.{◌≡◌, ◌+◌, ◌-◌, ◌<◌, ◌≤◌, ◌^◌, [], ◌∷◌, ◌++◌, List, map, length, IfOk, IfErr};
ghost use Rattle.std.specs.Prelude.{IfSome, OnOk, ℕ, false};
ghost use Rattle.ep_ast.specs.Cut as cut;
ghost use Rattle.ep_lexer.specs.Step as step;
ghost use Rattle.ep_lexer.specs.Tokens.{view, at_view, all_view};
ghost use Rattle.ep_ast.specs.Token.{Tok};
ghost use Rattle.ep_ast.specs.Refusal.{IfRefused};
ghost use Rattle.ep_ast.specs.declared.refusals.Refusal.{Refusal};

use crate::bytes::after;
use crate::definitions::Definitions;
use crate::directives::{Effect, Open, directive_at};
use crate::things::{Thing, next_thing, refusal};
use crate::tokens::{Token, TokenKind, Tokens};
use crate::words::{accepted, reserved};
use ep_ast::{Halt, NamedOrder, Refusal, RefusalKind};
use std::alloc::{AllocError, Global};

/// Where the reading stands: the line, whether nothing stands before it on its line, and the conditional round it.
#[derive(Clone, Copy, Debug)]
pub struct Position {
    pub line: u32,
    pub fresh: bool,
    pub arm: Open,
}

/// A piece that was read: its token, where it has one, the position behind it and what comes after it.
#[derive(Debug, Drop)]
pub struct Step<'a> {
    pub token: Option<Token<'a>>,
    pub position: Position,
    pub rest: &'a [u8],
}

fn named<'a>(definitions: &Definitions, line: u32, text: &'a [u8]) -> Result<TokenKind<'a>, Refusal>
    ensures { step.shown (λ k. at_view line k) result ≡ step.token_of line text.now
        (cut.sense (step.constants definitions.now) text.now) }
{
    if let Some(word) = accepted(text) {
        return Ok(TokenKind::Word(word));
    }
    if let Some(word) = reserved(text) {
        return Err(Refusal {
            kind: RefusalKind::ReservedWord,
            line,
            word: Some(word),
        });
    }
    if let Some(number) = definitions.get(text) {
        return Ok(TokenKind::Number(number));
    }
    Ok(TokenKind::Name(text))
}

/// The position behind something that ends on this line.
#[inline]
fn behind(line: u32, arm: Open) -> Position
    ensures { result ≡ record { line = line; fresh = false; arm = arm } }
{
    Position {
        line,
        fresh: false,
        arm,
    }
}

/// The token of an `#if` of this order.
fn opening(order: NamedOrder) -> TokenKind<'static>
    ensures { (l : ℕ) → at_view l result ≡ cut.order_token order l }
{
    match order {
        NamedOrder::Little => TokenKind::IfLittle,
        NamedOrder::Big => TokenKind::IfBig,
    }
}

/// What a directive leaves that ends on this line and whose `#` stands on line `hash`.
fn apply<'a>(
    alloc: Global,
    position: Position,
    definitions: &mut Definitions,
    hash: u32,
    effect: Effect<'a>,
    line: u32,
) -> Result<(Option<Token<'a>>, Position), AllocError>
    requires { step.IsNew (step.constants definitions.old) (step.effect_view effect) }
    ensures value { IfOk result (λ p. (step.token_view p.0, step.position_view p.1 (step.constants definitions.new)) ≡
        step.applied (step.position_view position (step.constants definitions.old)) hash (step.effect_view effect.entry)
        line) }
    ensures same { IfOk result (λ p. p.1.line ≡ line) }
{
    let (what, arm) = match effect {
        Effect::Nothing => (None, position.arm),
        Effect::Defines(name, number) => {
            definitions.add(alloc, name, number)?;
            (None, position.arm)
        }
        Effect::Opens(order) => (Some(opening(order)), Open::FirstArm(hash)),
        Effect::Turns(from) => (Some(TokenKind::Other), Open::SecondArm(from)),
        Effect::Closes => (Some(TokenKind::EndIf), Open::Outside),
    };
    let token = what.map(|what| Token { line: hash, what });
    Ok((token, behind(line, arm)))
}

/// The end of a line, or of the source.
fn line_end<'a>(position: Position, line: u32, bytes: &'a [u8]) -> Result<Option<Step<'a>>, Refusal>
    requires { line + length bytes.now < 2 ^ 32 }
    ensures value { (cs : cut.Constants) → step.shown (step.step_view cs) result ≡ step.line_ended
        (step.position_view position cs) line bytes.now }
    ensures within { IfOk result (λ o. IfSome o (λ s. s.position.line + length s.rest.now ≤ line + length bytes.now)) }
    ensures shorter { IfOk result (λ o. IfSome o (λ s. length s.rest.now < length bytes.now)) }
{
    if bytes.is_empty() {
        return match position.arm {
            Open::Outside => Ok(None),
            Open::FirstArm(from) | Open::SecondArm(from) => Err(refusal(
                RefusalKind::Conditional,
                from,
            )),
        };
    }
    Ok(Some(Step {
        token: None,
        position: Position {
            line: line + 1,
            fresh: true,
            arm: position.arm,
        },
        rest: after(bytes, 1),
    }))
}

/// Behind a `#` on this line.
fn directive<'a>(
    alloc: Global,
    position: Position,
    definitions: &mut Definitions,
    hash: u32,
    bytes: &'a [u8],
) -> Result<Option<Step<'a>>, Halt>
    requires { hash + length bytes.now < 2 ^ 32 }
    ensures value { step.Refines (step.step_view (step.constants definitions.new)) result
        (step.hash_on (step.position_view position (step.constants definitions.old)) hash bytes.now) }
    ensures within { IfOk result (λ o. IfSome o (λ s. s.position.line + length s.rest.now ≤ hash + length bytes.now)) }
    ensures shorter { IfOk result (λ o. IfSome o (λ s. length s.rest.now ≤ length bytes.now)) }
{
    if !position.fresh {
        return Err(Halt::Refused(refusal(RefusalKind::Byte, hash)));
    }
    let read = directive_at(position.arm, definitions, hash, bytes)?;
    let (token, behind) = apply(alloc, position, definitions, hash, read.effect, read.line)?;
    Ok(Some(Step {
        token,
        position: behind,
        rest: read.rest,
    }))
}

/// The piece with which the bytes begin, or None where the source ends.
#[tactic(auto, unfolding(crate::specs::Step::step))]
fn read_piece<'a>(
    alloc: Global,
    position: Position,
    definitions: &mut Definitions,
    bytes: &'a [u8],
) -> Result<Option<Step<'a>>, Halt>
    requires { position.line + length bytes.now < 2 ^ 32 }
    ensures value { step.Refines (step.step_view (step.constants definitions.new)) result
        (step.step (step.position_view position (step.constants definitions.old)) bytes.now) }
    ensures within { IfOk result (λ o. IfSome o (λ s. s.position.line + length s.rest.now ≤ position.line + length
        bytes.now)) }
    ensures shorter { IfOk result (λ o. IfSome o (λ s. length s.rest.now < length bytes.now)) }
{
    let next = next_thing(position.line, bytes)?;
    let what = match next.thing {
        Thing::Over => return Ok(line_end(position, next.line, next.rest)?),
        Thing::Hash => return directive(alloc, position, definitions, next.line, next.rest),
        Thing::Quote => return Err(Halt::Refused(refusal(RefusalKind::StringLiteral, next.line))),
        Thing::Name(text) => named(definitions, next.line, text)?,
        Thing::Number(number) => TokenKind::Number(number),
        Thing::Mark(mark) => TokenKind::Mark(mark),
    };
    Ok(Some(Step {
        token: Some(Token {
            line: next.line,
            what,
        }),
        position: behind(next.line, position.arm),
        rest: next.rest,
    }))
}

#[inline]
fn keep<'a>(list: &mut Vec<Token<'a>>, token: Option<Token<'a>>) -> Result<(), AllocError>
    ensures { OnOk result (map view list.new.items ≡ map view list.old.items ++ step.token_view token.entry) }
{
    match token {
        None => Ok(()),
        Some(token) => {
            list.push(token)?;
            Ok(())
        }
    }
}

// As many as the greatest source that the program reads has bytes.
const MOST_TOKENS: usize = 1_048_576;

// A list with room for the tokens of any source that the program reads, else for those of one of so many bytes, else
// one that grows as they come. What isn't used of the room is never touched.
fn room_for<'a>(alloc: Global, bytes: usize) -> Vec<Token<'a>>
    ensures { result.items ≡ [] }
{
    if let Ok(list) = Vec::with_capacity(alloc, MOST_TOKENS) {
        return list;
    }
    if let Ok(list) = Vec::with_capacity(alloc, bytes) {
        return list;
    }
    Vec::new(alloc)
}

/// The tokens of a source, or the first of the refusals 1 to 8.
pub fn lex<'a>(alloc: Global, source: &'a [u8]) -> Result<Tokens<'a>, Halt>
    requires { length source.now < 2 ^ 24 }
    ensures spells { IfOk result (λ tokens. cut.Spells source.now (all_view tokens)) }
    ensures only { IfOk result (λ tokens. (ts : List Tok) → cut.Spells source.now ts → ts ≡ all_view tokens) }
    ensures faultless { IfOk result (λ _. (r : Refusal) → cut.Offends cut.start source.now r → ⊥) }
    ensures offends { IfErr result (λ e. IfRefused e (λ r. cut.Offends cut.start source.now r)) }
    ensures first { IfErr result (λ e. IfRefused e (λ r. (q : Refusal) → cut.Offends cut.start source.now q → q ≡ r)) }
    ensures spells_nothing { IfErr result (λ e. IfRefused e (λ _. (ts : List Tok) → cut.Spells source.now ts → ⊥)) }
{
    let mut list = room_for(alloc, source.len());
    let mut definitions = Definitions::new(alloc);
    let mut position = Position {
        line: 1,
        fresh: true,
        arm: Open::Outside,
    };
    let mut rest = source;
    'pieces: while let Some(step) = read_piece(alloc, position, &mut definitions, rest)? {
        keep(&mut list, step.token)?;
        position = step.position;
        rest = step.rest;
    }
    Ok(Tokens { list })
}
