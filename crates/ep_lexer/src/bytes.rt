//! Classes of bytes.

ghost use Rattle.std.specs.Prelude.{◌≡◌, ◌≢◌, ◌+◌, ◌-◌, ◌<◌, ◌≤◌, ◌^◌, length, drop, slice_index, IsTrue, IfOk, IfSome};
ghost use Rattle.std.specs.List.{prefix_len};
ghost use Rattle.std.specs.Option.{option_map};
ghost use Rattle.ep_ast.specs.Lexeme as spec;
ghost use Rattle.ep_lexer.specs.Step as step;

/// The byte there, or 0 past the end.
#[inline]
pub fn byte(bytes: &[u8], at: usize) -> u8
    ensures value { result ≡ slice_index bytes.now at }
    ensures within { result ≢ 0 → at < length bytes.now }
{
    if at < bytes.len() { bytes[at] } else { 0 }
}

/// What comes after so many bytes.
#[inline]
pub fn after(bytes: &[u8], count: usize) -> &[u8]
    requires { count ≤ length bytes.now }
    ensures { result.now ≡ drop count bytes.now }
{
    bytes.split_at(count).1
}

#[inline]
fn is_blank(b: u8) -> bool
    ensures { result ≡ spec.is_blank b }
{
    b == b' ' || b == b'\t' || b == b'\r'
}

/// Whether the byte is a decimal digit (C11 6.4.2.1).
#[inline]
pub fn is_digit(b: u8) -> bool
    ensures { result ≡ spec.is_digit b }
{
    b'0' <= b && b <= b'9'
}

/// Whether the byte is a letter or `_` (C11 6.4.2.1).
#[inline]
pub fn is_letter(b: u8) -> bool
    ensures { result ≡ spec.is_letter b }
{
    (b'a' <= b && b <= b'z') || (b'A' <= b && b <= b'Z') || b == b'_'
}

/// Whether the byte may stand inside of a name (C11 6.4.2.1).
#[inline]
pub fn is_word(b: u8) -> bool
    ensures { result ≡ spec.is_word b }
{
    is_letter(b) || is_digit(b)
}

/// How many letters, digits and `_` there are at the front.
pub fn word_len(bytes: &[u8]) -> usize
    ensures value { result ≡ prefix_len spec.is_word bytes.now }
    ensures within { result ≤ length bytes.now }
{
    let mut end = 0;
    while end < bytes.len() && is_word(bytes[end]) {
        end += 1;
    }
    end
}

#[inline]
fn line_after(line: u32, b: u8) -> u32
    requires { line < 2 ^ 32 - 1 }
    ensures { result ≡ spec.line_after line b }
{
    if b == b'\n' { line + 1 } else { line }
}

/// Behind `/*`: the line on which the comment ends, and what comes after it.
fn past_comment(line: u32, bytes: &[u8]) -> Option<(u32, &[u8])>
    requires { line + length bytes.now < 2 ^ 32 }
    ensures value { option_map (λ p. (p.0, p.1.now)) result ≡ spec.past_comment line bytes.now }
    ensures within { IfSome result (λ p. p.0 + length p.1.now ≤ line + length bytes.now) }
    ensures shorter { IfSome result (λ p. length p.1.now ≤ length bytes.now) }
{
    let mut rest = bytes;
    let mut at = line;
    while let [b, more @ ..] = rest {
        if *b == b'*' && byte(more, 0) == b'/' {
            return Some((at, &more[1..]));
        }
        at = line_after(at, *b);
        rest = more;
    }
    None
}

/// From the next newline on.
fn to_line_end(bytes: &[u8]) -> &[u8]
    ensures value { result.now ≡ spec.to_line_end bytes.now }
    ensures within { length result.now ≤ length bytes.now }
{
    let mut rest = bytes;
    while let [b, more @ ..] = rest {
        if *b == b'\n' {
            break;
        }
        rest = more;
    }
    rest
}

#[inline]
fn opens_remark(bytes: &[u8]) -> bool
    ensures { result ≡ spec.opens_remark bytes.now }
{
    byte(bytes, 0) == b'/' && byte(bytes, 1) == b'/'
}

#[inline]
fn opens_comment(bytes: &[u8]) -> bool
    ensures value { result ≡ spec.opens_comment bytes.now }
    ensures within { IsTrue result → 2 ≤ length bytes.now }
{
    byte(bytes, 0) == b'/' && byte(bytes, 1) == b'*'
}

/// Past blanks and comments: the line there, and what comes next. An `Err` is the line of a comment that isn't closed.
#[tactic(auto, using(crate::proofs::Skips::skips))]
pub fn skip(line: u32, bytes: &[u8]) -> Result<(u32, &[u8]), u32>
    requires { line + length bytes.now < 2 ^ 32 }
    ensures value { step.skipped result ≡ step.skip step.plain line bytes.now }
    ensures within { IfOk result (λ p. p.0 + length p.1.now ≤ line + length bytes.now) }
    ensures shorter { IfOk result (λ p. length p.1.now ≤ length bytes.now) }
{
    let mut rest = bytes;
    let mut at = line;
    while !rest.is_empty() {
        if is_blank(rest[0]) {
            rest = after(rest, 1);
        } else if opens_remark(rest) {
            return Ok((at, to_line_end(after(rest, 1))));
        } else if opens_comment(rest) {
            match past_comment(at, after(rest, 2)) {
                None => return Err(at),
                Some((end, behind)) => {
                    at = end;
                    rest = behind;
                }
            }
        } else {
            return Ok((at, rest));
        }
    }
    Ok((at, rest))
}
