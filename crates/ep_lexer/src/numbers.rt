//! Integer and character constants.

ghost use Rattle.std.specs.Prelude.{◌≡◌, ◌+◌, ◌*◌, ◌<◌, ◌≤◌, ◌^◌, length, IfSome, MatchOption};
ghost use Rattle.std.specs.List.{prefix_len};
ghost use Rattle.ep_ast.specs.Lexeme as spec;
ghost use Rattle.ep_lexer.specs.Step as step;

use crate::bytes::{after, byte, is_digit, is_word};
use ep_ast::Literal;

#[inline]
fn goes_on(a: u8, b: u8) -> bool
    ensures { result ≡ spec.goes_on a b }
{
    is_word(b)
        || b == b'.'
        || ((b == b'+' || b == b'-') && (a == b'e' || a == b'E' || a == b'p' || a == b'P'))
}

/// How many bytes a number goes on behind its first.
pub fn number_len(first: u8, bytes: &[u8]) -> usize
    ensures value { result ≡ spec.number_len first bytes.now }
    ensures within { result ≤ length bytes.now }
{
    let mut before = first;
    let mut end = 0;
    while end < bytes.len() && goes_on(before, bytes[end]) {
        before = bytes[end];
        end += 1;
    }
    end
}

#[inline]
fn digit_value(b: u8) -> u8
    ensures value { result ≡ spec.digit_value b }
    ensures small { result ≤ 16 }
{
    if is_digit(b) {
        b - b'0'
    } else if b'a' <= b && b <= b'f' {
        b - b'a' + 10
    } else if b'A' <= b && b <= b'F' {
        b - b'A' + 10
    } else {
        16
    }
}

fn digits_len(base: u8, bytes: &[u8]) -> usize
    ensures value { result ≡ prefix_len (spec.is_digit_of base) bytes.now }
    ensures within { result ≤ length bytes.now }
{
    let mut end = 0;
    while end < bytes.len() && digit_value(bytes[end]) < base {
        end += 1;
    }
    end
}

fn with_digit(n: u64, base: u8, digit: u8) -> Option<u64>
    ensures { MatchOption result (2 ^ 64 ≤ n * base + digit) (λ m. m ≡ n * base + digit) }
{
    n.checked_mul(base as u64)?.checked_add(digit as u64)
}

/// The value of the digits, or None where it doesn't fit 64 bits.
#[tactic(auto, using(crate::proofs::Values::overflows))]
fn value_of(base: u8, digits: &[u8]) -> Option<u64>
    requires { 0 < base }
    ensures { MatchOption result (2 ^ 64 ≤ spec.value_of base digits.now) (λ v. v ≡ spec.value_of base digits.now) }
{
    let mut rest = digits;
    let mut n: u64 = 0;
    while let [b, more @ ..] = rest {
        n = with_digit(n, base, digit_value(*b))?;
        rest = more;
    }
    Some(n)
}

fn is_unsigned(b: u8) -> bool
    ensures { result ≡ spec.is_unsigned b }
{
    b == b'u' || b == b'U'
}

fn is_long(b: u8) -> bool
    ensures { result ≡ spec.is_long b }
{
    b == b'l' || b == b'L'
}

/// Whether there is a `u`, and how many times `l`.
fn suffix(bytes: &[u8]) -> Option<(bool, u8)>
    ensures { result ≡ spec.suffix bytes.now }
{
    match bytes {
        [] => Some((false, 0)),
        [a] => {
            if is_unsigned(*a) {
                Some((true, 0))
            } else if is_long(*a) {
                Some((false, 1))
            } else {
                None
            }
        }
        [a, b] => {
            if (is_unsigned(*a) && is_long(*b)) || (is_long(*a) && is_unsigned(*b)) {
                Some((true, 1))
            } else if is_long(*a) && *a == *b {
                Some((false, 2))
            } else {
                None
            }
        }
        [a, b, c] => {
            if (is_unsigned(*a) && is_long(*b) && *b == *c)
                || (is_long(*a) && *a == *b && is_unsigned(*c))
            {
                Some((true, 2))
            } else {
                None
            }
        }
        _ => None,
    }
}

const SIGNED_LIMIT: u64 = 0x8000_0000_0000_0000;

/// A number of this base: its digits, at least one, and its suffix.
fn in_base(base: u8, decimal: bool, bytes: &[u8]) -> Option<Literal>
    requires { 0 < base }
    ensures { result ≡ spec.in_base base decimal bytes.now }
{
    let count = digits_len(base, bytes);
    if count == 0 {
        return None;
    }
    let (digits, rest) = bytes.split_at(count);
    let (unsigned, longs) = suffix(rest)?;
    let value = value_of(base, digits)?;
    if decimal && !unsigned && SIGNED_LIMIT <= value {
        return None;
    }
    Some(Literal {
        value,
        decimal,
        unsigned,
        longs,
    })
}

/// The number that the bytes of its token write.
pub fn literal(bytes: &[u8]) -> Option<Literal>
    ensures { result ≡ spec.literal bytes.now }
{
    if byte(bytes, 0) != b'0' {
        return in_base(10, true, bytes);
    }
    let second = byte(bytes, 1);
    if second == b'x' || second == b'X' {
        in_base(16, false, after(bytes, 2))
    } else {
        in_base(8, false, bytes)
    }
}

fn escape(b: u8) -> Option<u8>
    ensures { result ≡ spec.escape b }
{
    match b {
        b'0' => Some(0),
        b'a' => Some(7),
        b'b' => Some(8),
        b'f' => Some(12),
        b'n' => Some(10),
        b'r' => Some(13),
        b't' => Some(9),
        b'v' => Some(11),
        b'\\' | b'\'' | b'"' | b'?' => Some(b),
        _ => None,
    }
}

/// Behind `'`: the value of the character, and how many bytes there are up to the closing `'` and with it.
pub fn character(bytes: &[u8]) -> Option<(u8, usize)>
    ensures value { result ≡ spec.character bytes.now }
    ensures within { IfSome result (λ p. p.1 ≤ length bytes.now) }
{
    let a = byte(bytes, 0);
    let b = byte(bytes, 1);
    let c = byte(bytes, 2);
    if a == b'\\' {
        if c != b'\'' {
            return None;
        }
        let value = escape(b)?;
        Some((value, 3))
    } else if 32 <= a && a <= 126 && a != b'\'' && b == b'\'' {
        Some((a, 2))
    } else {
        None
    }
}
