//! Lines that begin with `#`.

ghost use Rattle.std.specs.Prelude.{◌≡◌, ◌+◌, ◌-◌, ◌<◌, ◌≤◌, ◌^◌, codes, length, IfOk, IfSome};
ghost use Rattle.std.specs.Option.{option_map};
ghost use Rattle.ep_ast.specs.Cut as cut;
ghost use Rattle.ep_ast.specs.Kind.{number_of};
ghost use Rattle.ep_lexer.specs.Step as step;

use crate::bytes::{after, skip};
use crate::definitions::Definitions;
use crate::things::{Next, Thing, next_thing, refusal, thing_at};
use crate::words::{accepted, reserved};
use ep_ast::{Literal, Mark, NamedOrder, Refusal, RefusalKind};

/// Whether a conditional is open: its first arm, or the one behind `#else`, with the line of its `#if`.
#[derive(Clone, Copy, Debug)]
pub enum Open {
    Outside,
    FirstArm(u32),
    SecondArm(u32),
}

/// What a directive does. `Turns` has the line of the `#if`.
#[derive(Clone, Copy, Debug)]
pub enum Effect<'a> {
    Nothing,
    Defines(&'a [u8], Literal),
    Opens(NamedOrder),
    Turns(u32),
    Closes,
}

/// A directive, the line on which it ends and what comes after it.
#[derive(Clone, Copy, Debug)]
pub struct Directive<'a> {
    pub effect: Effect<'a>,
    pub line: u32,
    pub rest: &'a [u8],
}

/// How a thing is refused in a directive of this kind, whose `#` stands on line `hash`.
fn wrong(kind: RefusalKind, hash: u32, next: &Next) -> Refusal
    ensures { result ≡ cut.wrong (number_of kind) hash next.now.line (step.thing_view next.now.thing) }
{
    match next.thing {
        Thing::Hash => refusal(RefusalKind::Byte, next.line),
        Thing::Quote => {
            if kind == RefusalKind::Include {
                refusal(RefusalKind::Include, hash)
            } else {
                refusal(RefusalKind::StringLiteral, next.line)
            }
        }
        _ => refusal(kind, hash),
    }
}

fn over_at<'a>(
    kind: RefusalKind,
    hash: u32,
    line: u32,
    bytes: &'a [u8],
) -> Result<(u32, &'a [u8]), Refusal>
    requires { line + length bytes.now < 2 ^ 32 }
    ensures value { step.shown (λ p. (p.0, p.1.now)) result ≡ step.over_at (number_of kind) hash line bytes.now }
    ensures within { IfOk result (λ p. p.0 + length p.1.now ≤ line + length bytes.now) }
    ensures shorter { IfOk result (λ p. length p.1.now ≤ length bytes.now) }
{
    let next = next_thing(line, bytes)?;
    match next.thing {
        Thing::Over => Ok((next.line, next.rest)),
        _ => Err(wrong(kind, hash, &next)),
    }
}

fn name_at<'a>(
    kind: RefusalKind,
    hash: u32,
    line: u32,
    bytes: &'a [u8],
) -> Result<(&'a [u8], u32, &'a [u8]), Refusal>
    requires { line + length bytes.now < 2 ^ 32 }
    ensures value { step.shown (λ p. (p.0.now, p.1, p.2.now)) result ≡ step.name_at (number_of kind) hash line
        bytes.now }
    ensures within { IfOk result (λ p. p.1 + length p.2.now ≤ line + length bytes.now) }
    ensures shorter { IfOk result (λ p. length p.2.now ≤ length bytes.now) }
{
    let next = next_thing(line, bytes)?;
    match next.thing {
        Thing::Name(text) => Ok((text, next.line, next.rest)),
        _ => Err(wrong(kind, hash, &next)),
    }
}

fn value(defined: &Definitions, thing: Thing) -> Option<Literal>
    ensures { result ≡ cut.value (step.constants defined.now) (step.thing_view thing.entry) }
{
    match thing {
        Thing::Number(n) => Some(n),
        Thing::Name(text) => defined.get(text),
        _ => None,
    }
}

fn constant_at<'a>(
    defined: &Definitions,
    hash: u32,
    line: u32,
    bytes: &'a [u8],
) -> Result<(Literal, u32, &'a [u8]), Refusal>
    requires { line + length bytes.now < 2 ^ 32 }
    ensures value { step.shown (λ p. (p.0, p.1, p.2.now)) result ≡ step.constant_at (step.constants defined.now) hash
        line bytes.now }
    ensures within { IfOk result (λ p. p.1 + length p.2.now ≤ line + length bytes.now) }
    ensures shorter { IfOk result (λ p. length p.2.now ≤ length bytes.now) }
{
    let next = next_thing(line, bytes)?;
    match value(defined, next.thing) {
        Some(n) => Ok((n, next.line, next.rest)),
        None => Err(wrong(RefusalKind::Directive, hash, &next)),
    }
}

#[tactic(auto, using(crate::proofs::Cases::mapped_none))]
fn may_define(defined: &Definitions, name: &[u8]) -> bool
    ensures { result ≡ cut.may_define (step.constants defined.now) name.now }
{
    accepted(name).is_none() && reserved(name).is_none() && defined.get(name).is_none()
}

fn equals_at<'a>(hash: u32, line: u32, bytes: &'a [u8]) -> Result<(u32, &'a [u8]), Refusal>
    requires { line + length bytes.now < 2 ^ 32 }
    ensures value { step.shown (λ p. (p.0, p.1.now)) result ≡ step.equals_at hash line bytes.now }
    ensures within { IfOk result (λ p. p.0 + length p.1.now ≤ line + length bytes.now) }
    ensures shorter { IfOk result (λ p. length p.1.now ≤ length bytes.now) }
{
    let next = next_thing(line, bytes)?;
    match next.thing {
        Thing::Mark(mark) => if mark == Mark::EqualEqual {
            Ok((next.line, next.rest))
        } else {
            Err(wrong(RefusalKind::Conditional, hash, &next))
        },
        Thing::Over | Thing::Hash | Thing::Quote | Thing::Name(_) | Thing::Number(_) => {
            Err(wrong(RefusalKind::Conditional, hash, &next))
        }
    }
}

fn is_plain(defined: &Definitions, word: &[u8], name: &[u8]) -> bool
    ensures { result ≡ step.is_plain (step.constants defined.now) word.now name.now }
{
    name == word && defined.get(name).is_none()
}

fn order_of(defined: &Definitions, name: &[u8]) -> Option<NamedOrder>
    ensures { result ≡ step.order_of (step.constants defined.now) name.now }
{
    if is_plain(defined, b"__ORDER_LITTLE_ENDIAN__", name) {
        Some(NamedOrder::Little)
    } else if is_plain(defined, b"__ORDER_BIG_ENDIAN__", name) {
        Some(NamedOrder::Big)
    } else {
        None
    }
}

/// Behind `define`: the name, its constant, and the end of the line.
#[tactic(auto, unfolding(crate::specs::Step::define_at))]
fn define_at<'a>(
    defined: &Definitions,
    hash: u32,
    line: u32,
    bytes: &'a [u8],
) -> Result<Directive<'a>, Refusal>
    requires { line + length bytes.now < 2 ^ 32 }
    ensures value { step.shown step.done_view result ≡ step.define_at (step.constants defined.now) hash line bytes.now }
    ensures fresh { IfOk result (λ d. step.IsNew (step.constants defined.now) (step.effect_view d.effect)) }
    ensures within { IfOk result (λ d. d.line + length d.rest.now ≤ line + length bytes.now) }
    ensures shorter { IfOk result (λ d. length d.rest.now ≤ length bytes.now) }
{
    let (name, line, bytes) = name_at(RefusalKind::Directive, hash, line, bytes)?;
    if !may_define(defined, name) {
        return Err(refusal(RefusalKind::Directive, hash));
    }
    let (number, line, bytes) = constant_at(defined, hash, line, bytes)?;
    let (line, rest) = over_at(RefusalKind::Directive, hash, line, bytes)?;
    Ok(Directive {
        effect: Effect::Defines(name, number),
        line,
        rest,
    })
}

/// Behind `if`: the condition on the byte order, and the end of the line.
#[tactic(auto, unfolding(crate::specs::Step::condition_at))]
fn condition_at<'a>(
    defined: &Definitions,
    hash: u32,
    line: u32,
    bytes: &'a [u8],
) -> Result<Directive<'a>, Refusal>
    requires { line + length bytes.now < 2 ^ 32 }
    ensures value { step.shown step.done_view result ≡ step.condition_at (step.constants defined.now) hash line
        bytes.now }
    ensures fresh { IfOk result (λ d. step.IsNew (step.constants defined.now) (step.effect_view d.effect)) }
    ensures within { IfOk result (λ d. d.line + length d.rest.now ≤ line + length bytes.now) }
    ensures shorter { IfOk result (λ d. length d.rest.now ≤ length bytes.now) }
{
    let (name, line, bytes) = name_at(RefusalKind::Conditional, hash, line, bytes)?;
    if !is_plain(defined, b"__BYTE_ORDER__", name) {
        return Err(refusal(RefusalKind::Conditional, hash));
    }
    let (line, bytes) = equals_at(hash, line, bytes)?;
    let (name, line, bytes) = name_at(RefusalKind::Conditional, hash, line, bytes)?;
    let Some(order) = order_of(defined, name) else {
        return Err(refusal(RefusalKind::Conditional, hash));
    };
    let (line, rest) = over_at(RefusalKind::Conditional, hash, line, bytes)?;
    Ok(Directive {
        effect: Effect::Opens(order),
        line,
        rest,
    })
}

/// What comes after a header name.
fn after_header(bytes: &[u8]) -> Option<&[u8]>
    ensures value { option_map (λ r. r.now) result ≡ cut.after cut.headers bytes.now }
    ensures within { IfSome result (λ r. length r.now ≤ length bytes.now) }
{
    if bytes.starts_with(b"<stdint.h>") {
        Some(after(bytes, 10))
    } else if bytes.starts_with(b"<stddef.h>") {
        Some(after(bytes, 10))
    } else if bytes.starts_with(b"<string.h>") {
        Some(after(bytes, 10))
    } else if bytes.starts_with(b"\"ep.h\"") {
        Some(after(bytes, 6))
    } else {
        None
    }
}

/// Where the line ends here, a directive with this effect.
fn ending_at<'a>(
    effect: Effect<'a>,
    kind: RefusalKind,
    hash: u32,
    line: u32,
    bytes: &'a [u8],
) -> Result<Directive<'a>, Refusal>
    requires { line + length bytes.now < 2 ^ 32 }
    ensures value { step.shown step.done_view result ≡ step.ending_at (step.effect_view effect.entry)
        (number_of kind) hash line
        bytes.now }
    ensures effect { IfOk result (λ d. step.effect_view d.effect ≡ step.effect_view effect.entry) }
    ensures within { IfOk result (λ d. d.line + length d.rest.now ≤ line + length bytes.now) }
    ensures shorter { IfOk result (λ d. length d.rest.now ≤ length bytes.now) }
{
    let (line, rest) = over_at(kind, hash, line, bytes)?;
    Ok(Directive { effect, line, rest })
}

/// Behind `include`: a header name, and the end of the line.
#[tactic(auto, unfolding(crate::specs::Step::include_at))]
fn include_at<'a>(hash: u32, line: u32, bytes: &'a [u8]) -> Result<Directive<'a>, Refusal>
    requires { line + length bytes.now < 2 ^ 32 }
    ensures value { step.shown step.done_view result ≡ step.include_at hash line bytes.now }
    ensures effect { IfOk result (λ d. step.effect_view d.effect ≡ step.nothing) }
    ensures within { IfOk result (λ d. d.line + length d.rest.now ≤ line + length bytes.now) }
    ensures shorter { IfOk result (λ d. length d.rest.now ≤ length bytes.now) }
{
    match skip(line, bytes) {
        Err(from) => Err(refusal(RefusalKind::Comment, from)),
        Ok((line, bytes)) => match after_header(bytes) {
            None => {
                let next = thing_at(line, bytes)?;
                Err(wrong(RefusalKind::Include, hash, &next))
            }
            Some(rest) => ending_at(Effect::Nothing, RefusalKind::Include, hash, line, rest),
        },
    }
}

fn word_kind(word: &[u8]) -> RefusalKind
    ensures { number_of result ≡ step.word_kind word.now }
{
    if word == b"elif".as_slice() || word == b"else".as_slice() || word == b"endif".as_slice() {
        RefusalKind::Conditional
    } else {
        RefusalKind::Directive
    }
}

fn directive_outside<'a>(
    defined: &Definitions,
    hash: u32,
    word: &[u8],
    line: u32,
    bytes: &'a [u8],
) -> Result<Directive<'a>, Refusal>
    requires { line + length bytes.now < 2 ^ 32 }
    ensures value { step.shown step.done_view result ≡ step.directive_outside (step.constants defined.now) hash word.now
        line bytes.now }
    ensures fresh { IfOk result (λ d. step.IsNew (step.constants defined.now) (step.effect_view d.effect)) }
    ensures within { IfOk result (λ d. d.line + length d.rest.now ≤ line + length bytes.now) }
    ensures shorter { IfOk result (λ d. length d.rest.now ≤ length bytes.now) }
{
    if word == b"define".as_slice() {
        define_at(defined, hash, line, bytes)
    } else if word == b"include".as_slice() {
        include_at(hash, line, bytes)
    } else if word == b"if".as_slice() {
        condition_at(defined, hash, line, bytes)
    } else {
        Err(refusal(word_kind(word), hash))
    }
}

fn directive_in_first<'a>(
    from: u32,
    hash: u32,
    word: &[u8],
    line: u32,
    bytes: &'a [u8],
) -> Result<Directive<'a>, Refusal>
    requires { line + length bytes.now < 2 ^ 32 }
    ensures value { step.shown step.done_view result ≡ step.directive_in_first from hash word.now line bytes.now }
    ensures fresh { (cs : cut.Constants) → IfOk result (λ d. step.IsNew cs (step.effect_view d.effect)) }
    ensures within { IfOk result (λ d. d.line + length d.rest.now ≤ line + length bytes.now) }
    ensures shorter { IfOk result (λ d. length d.rest.now ≤ length bytes.now) }
{
    if word == b"endif".as_slice() {
        ending_at(Effect::Closes, RefusalKind::Conditional, hash, line, bytes)
    } else if word == b"else".as_slice() {
        ending_at(
            Effect::Turns(from),
            RefusalKind::Conditional,
            hash,
            line,
            bytes,
        )
    } else {
        Err(refusal(RefusalKind::Conditional, hash))
    }
}

fn directive_in_second<'a>(
    hash: u32,
    word: &[u8],
    line: u32,
    bytes: &'a [u8],
) -> Result<Directive<'a>, Refusal>
    requires { line + length bytes.now < 2 ^ 32 }
    ensures value { step.shown step.done_view result ≡ step.directive_in_second hash word.now line bytes.now }
    ensures fresh { (cs : cut.Constants) → IfOk result (λ d. step.IsNew cs (step.effect_view d.effect)) }
    ensures within { IfOk result (λ d. d.line + length d.rest.now ≤ line + length bytes.now) }
    ensures shorter { IfOk result (λ d. length d.rest.now ≤ length bytes.now) }
{
    if word == b"endif".as_slice() {
        ending_at(Effect::Closes, RefusalKind::Conditional, hash, line, bytes)
    } else {
        Err(refusal(RefusalKind::Conditional, hash))
    }
}

fn first_kind(arm: Open) -> RefusalKind
    ensures { number_of result ≡ step.first_kind (step.open_view arm) }
{
    match arm {
        Open::Outside => RefusalKind::Directive,
        Open::FirstArm(_) | Open::SecondArm(_) => RefusalKind::Conditional,
    }
}

/// The directive behind a `#` on this line.
#[tactic(auto, unfolding(crate::specs::Step::directive_at))]
pub fn directive_at<'a>(
    arm: Open,
    defined: &Definitions,
    hash: u32,
    bytes: &'a [u8],
) -> Result<Directive<'a>, Refusal>
    requires { hash + length bytes.now < 2 ^ 32 }
    ensures value { step.shown step.done_view result ≡ step.directive_at (step.open_view arm)
        (step.constants defined.now) hash bytes.now }
    ensures fresh { IfOk result (λ d. step.IsNew (step.constants defined.now) (step.effect_view d.effect)) }
    ensures within { IfOk result (λ d. d.line + length d.rest.now ≤ hash + length bytes.now) }
    ensures shorter { IfOk result (λ d. length d.rest.now ≤ length bytes.now) }
{
    let (word, line, bytes) = name_at(first_kind(arm), hash, hash, bytes)?;
    match arm {
        Open::Outside => directive_outside(defined, hash, word, line, bytes),
        Open::FirstArm(from) => directive_in_first(from, hash, word, line, bytes),
        Open::SecondArm(_) => directive_in_second(hash, word, line, bytes),
    }
}
