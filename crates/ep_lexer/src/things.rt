//! What comes next in a source.

ghost use Rattle.std.specs.Prelude.{◌≡◌, ◌+◌, ◌-◌, ◌<◌, ◌≤◌, ◌^◌, IsTrue, length, drop, slice_index, IfOk};
ghost use Rattle.ep_ast.specs.Lexeme as spec;
ghost use Rattle.ep_ast.specs.Cut.{at_line};
ghost use Rattle.ep_ast.specs.Kind.{number_of};
ghost use Rattle.ep_lexer.specs.Step as step;

use crate::bytes::{after, is_digit, is_letter, skip, word_len};
use crate::numbers::{character, literal, number_len};
use crate::words::mark_at;
use ep_ast::{Literal, Mark, Refusal, RefusalKind};

/// What stands next on a line: its end or the end of the source, a `#`, a `"`, or a token.
#[derive(Clone, Copy, Debug)]
pub enum Thing<'a> {
    Over,
    Hash,
    Quote,
    Name(&'a [u8]),
    Number(Literal),
    Mark(Mark),
}

/// A thing, its line and what comes after it.
#[derive(Clone, Copy, Debug)]
pub struct Next<'a> {
    pub line: u32,
    pub thing: Thing<'a>,
    pub rest: &'a [u8],
}

/// A refusal that names no word.
#[inline]
pub fn refusal(kind: RefusalKind, line: u32) -> Refusal
    ensures { result ≡ at_line (number_of kind) line }
{
    Refusal::new(kind, line)
}

fn name_at<'a>(line: u32, bytes: &'a [u8]) -> Next<'a>
    requires { IsTrue (spec.is_letter (slice_index bytes.now 0)) }
    ensures value { step.next_view result ≡ (line, spec.name (spec.word_text bytes.now), spec.after_word bytes.now) }
    ensures shorter { length result.rest.now + step.weight result.thing ≤ length bytes.now }
{
    let (text, rest) = bytes.split_at(word_len(bytes));
    Next {
        line,
        thing: Thing::Name(text),
        rest,
    }
}

fn number_at<'a>(line: u32, bytes: &'a [u8]) -> Result<Next<'a>, Refusal>
    requires { IsTrue (spec.is_digit (slice_index bytes.now 0)) }
    ensures value { step.shown step.next_view result ≡ step.number_found line
        (spec.literal (spec.number_text bytes.now)) (spec.after_number bytes.now) }
    ensures shorter { IfOk result (λ n. length n.rest.now + step.weight n.thing ≤ length bytes.now) }
    ensures same { IfOk result (λ n. n.line ≡ line) }
{
    let (text, rest) = bytes.split_at(number_len(0, bytes));
    match literal(text) {
        None => Err(refusal(RefusalKind::Number, line)),
        Some(n) => Ok(Next {
            line,
            thing: Thing::Number(n),
            rest,
        }),
    }
}

/// Behind `'`.
fn character_at<'a>(line: u32, bytes: &'a [u8]) -> Result<Next<'a>, Refusal>
    ensures value { step.shown step.next_view result ≡ step.character_found line (spec.character bytes.now) bytes.now }
    ensures shorter { IfOk result (λ n. length n.rest.now + step.weight n.thing ≤ length bytes.now + 1) }
    ensures same { IfOk result (λ n. n.line ≡ line) }
{
    match character(bytes) {
        None => Err(refusal(RefusalKind::Number, line)),
        Some((value, count)) => Ok(Next {
            line,
            thing: Thing::Number(Literal {
                value: value as u64,
                decimal: true,
                unsigned: false,
                longs: 0,
            }),
            rest: after(bytes, count),
        }),
    }
}

fn sign_at<'a>(line: u32, bytes: &'a [u8]) -> Result<Next<'a>, Refusal>
    ensures value { step.shown step.next_view result ≡ step.mark_found line (spec.mark_at bytes.now) bytes.now }
    ensures shorter { IfOk result (λ n. length n.rest.now + step.weight n.thing ≤ length bytes.now) }
    ensures same { IfOk result (λ n. n.line ≡ line) }
{
    match mark_at(bytes) {
        None => Err(refusal(RefusalKind::Byte, line)),
        Some((n, count)) => Ok(Next {
            line,
            thing: Thing::Mark(n),
            rest: after(bytes, count),
        }),
    }
}

/// What comes next in these bytes.
#[tactic(auto, unfolding(crate::specs::Step::thing_at))]
pub fn thing_at<'a>(line: u32, bytes: &'a [u8]) -> Result<Next<'a>, Refusal>
    ensures value { step.shown step.next_view result ≡ step.thing_at line bytes.now }
    ensures shorter { IfOk result (λ n. length n.rest.now + step.weight n.thing ≤ length bytes.now) }
    ensures same { IfOk result (λ n. n.line ≡ line) }
{
    if bytes.is_empty() {
        return Ok(Next {
            line,
            thing: Thing::Over,
            rest: bytes,
        });
    }
    let b = bytes[0];
    if b == b'\n' {
        Ok(Next {
            line,
            thing: Thing::Over,
            rest: bytes,
        })
    } else if is_letter(b) {
        Ok(name_at(line, bytes))
    } else if is_digit(b) {
        number_at(line, bytes)
    } else if b == b'\'' {
        character_at(line, after(bytes, 1))
    } else if b == b'#' {
        Ok(Next {
            line,
            thing: Thing::Hash,
            rest: after(bytes, 1),
        })
    } else if b == b'"' {
        Ok(Next {
            line,
            thing: Thing::Quote,
            rest: after(bytes, 1),
        })
    } else {
        sign_at(line, bytes)
    }
}

/// What stands next behind blanks and comments, or what is broken there.
#[tactic(auto, unfolding(crate::specs::Step::next))]
pub fn next_thing<'a>(line: u32, bytes: &'a [u8]) -> Result<Next<'a>, Refusal>
    requires { line + length bytes.now < 2 ^ 32 }
    ensures value { step.shown step.next_view result ≡ step.next line bytes.now }
    ensures shorter { IfOk result (λ n. length n.rest.now + step.weight n.thing ≤ length bytes.now) }
    ensures within { IfOk result (λ n. n.line + length n.rest.now ≤ line + length bytes.now) }
{
    match skip(line, bytes) {
        Err(from) => Err(refusal(RefusalKind::Comment, from)),
        Ok((at, rest)) => thing_at(at, rest),
    }
}
