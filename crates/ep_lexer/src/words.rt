//! Names and reserved words.

ghost use Rattle.std.specs.Prelude.{◌≡◌, ◌+◌, ◌<◌, ◌≤◌, Some, length, IfSome};
ghost use Rattle.std.specs.Option.{option_map};
ghost use Rattle.ep_ast.specs.Lexeme.{mark_at, mark_len};
ghost use Rattle.ep_ast.specs.Mark.{mark_number, word_number};
ghost use Rattle.ep_ast.specs.Reserved.{reserved_number};
ghost use Rattle.ep_ast.specs.Cut as cut;
ghost use Rattle.ep_lexer.specs.Shorts as shorts;

use crate::bytes::byte;
use ep_ast::{Mark, ReservedWord, Word};

fn accepted_word(at: u8) -> Word
    requires { at < 22 }
    ensures { word_number result ≡ at + 1 }
{
    match at {
        0 => Word::Break,
        1 => Word::Char,
        2 => Word::Const,
        3 => Word::Continue,
        4 => Word::Do,
        5 => Word::Else,
        6 => Word::For,
        7 => Word::If,
        8 => Word::Inline,
        9 => Word::Int,
        10 => Word::Long,
        11 => Word::Return,
        12 => Word::Short,
        13 => Word::Signed,
        14 => Word::Sizeof,
        15 => Word::Static,
        16 => Word::Struct,
        17 => Word::Typedef,
        18 => Word::Union,
        19 => Word::Unsigned,
        20 => Word::Void,
        _ => Word::While,
    }
}

fn reserved_word(at: u8) -> ReservedWord
    requires { at < 22 }
    ensures { reserved_number (Some result) ≡ at + 1 }
{
    match at {
        0 => ReservedWord::Auto,
        1 => ReservedWord::Case,
        2 => ReservedWord::Default,
        3 => ReservedWord::Double,
        4 => ReservedWord::Enum,
        5 => ReservedWord::Extern,
        6 => ReservedWord::Float,
        7 => ReservedWord::Goto,
        8 => ReservedWord::Register,
        9 => ReservedWord::Restrict,
        10 => ReservedWord::Switch,
        11 => ReservedWord::Volatile,
        12 => ReservedWord::Alignas,
        13 => ReservedWord::Alignof,
        14 => ReservedWord::Atomic,
        15 => ReservedWord::Bool,
        16 => ReservedWord::Complex,
        17 => ReservedWord::Generic,
        18 => ReservedWord::Imaginary,
        19 => ReservedWord::Noreturn,
        20 => ReservedWord::StaticAssert,
        _ => ReservedWord::ThreadLocal,
    }
}

fn long_mark(at: u8) -> Mark
    requires { at < 21 }
    ensures { mark_number result ≡ at + 1 }
{
    match at {
        0 => Mark::LeftShiftEqual,
        1 => Mark::RightShiftEqual,
        2 => Mark::Arrow,
        3 => Mark::PlusPlus,
        4 => Mark::MinusMinus,
        5 => Mark::LeftShift,
        6 => Mark::RightShift,
        7 => Mark::LessEqual,
        8 => Mark::GreaterEqual,
        9 => Mark::EqualEqual,
        10 => Mark::NotEqual,
        11 => Mark::AndAnd,
        12 => Mark::BarBar,
        13 => Mark::PlusEqual,
        14 => Mark::MinusEqual,
        15 => Mark::StarEqual,
        16 => Mark::SlashEqual,
        17 => Mark::PercentEqual,
        18 => Mark::AmpersandEqual,
        19 => Mark::BarEqual,
        _ => Mark::CaretEqual,
    }
}

fn short_mark(at: u8) -> Mark
    requires { at < 24 }
    ensures { mark_number result ≡ at + 22 }
{
    match at {
        0 => Mark::LeftParen,
        1 => Mark::RightParen,
        2 => Mark::LeftBracket,
        3 => Mark::RightBracket,
        4 => Mark::LeftBrace,
        5 => Mark::RightBrace,
        6 => Mark::Dot,
        7 => Mark::Ampersand,
        8 => Mark::Star,
        9 => Mark::Plus,
        10 => Mark::Minus,
        11 => Mark::Tilde,
        12 => Mark::Exclamation,
        13 => Mark::Slash,
        14 => Mark::Percent,
        15 => Mark::Less,
        16 => Mark::Greater,
        17 => Mark::Caret,
        18 => Mark::Bar,
        19 => Mark::Question,
        20 => Mark::Colon,
        21 => Mark::Semicolon,
        22 => Mark::Equal,
        _ => Mark::Comma,
    }
}

fn mark_of(at: u8) -> Mark
    requires { at < 45 }
    ensures { mark_number result ≡ at + 1 }
{
    if at < 21 {
        long_mark(at)
    } else {
        short_mark(at - 21)
    }
}

/// The accepted word that a text is.
#[tactic(auto, using(crate::proofs::Numbered::numbered))]
pub fn accepted(text: &[u8]) -> Option<Word>
    ensures { option_map word_number result ≡ cut.accepted text.now }
{
    if text.len() < 2 {
        return None;
    }
    for at in 0..22u8 {
        let word = accepted_word(at);
        if text == word.text() {
            return Some(word);
        }
    }
    None
}

/// The reserved word that a text is.
#[tactic(auto, using(crate::proofs::Numbered::numbered))]
pub fn reserved(text: &[u8]) -> Option<ReservedWord>
    ensures { option_map (λ w. reserved_number (Some w)) result ≡ cut.reserved text.now }
{
    if text.len() < 2 {
        return None;
    }
    for at in 0..22u8 {
        let word = reserved_word(at);
        if text == word.text() {
            return Some(word);
        }
    }
    None
}

// The first byte of each mark, in their order.
const FIRST_BYTES: [u8; 45] = *b"<>-+-<><>=!&|+-*/%&|^()[]{}.&*+-~!/%<>^|?:;=,";

// The same as `mark_at`, looked for among all marks.
#[tactic(auto, using(crate::proofs::Numbered::numbered))]
fn longest_at(bytes: &[u8]) -> Option<(Mark, usize)>
    ensures value { option_map (λ p. mark_number p.0) result ≡ mark_at bytes.now }
    ensures len { IfSome result (λ p. p.1 ≡ mark_len (mark_number p.0)) }
    ensures within { IfSome result (λ p. (0 < p.1) × (p.1 ≤ length bytes.now)) }
{
    if bytes.is_empty() {
        return None;
    }
    let first = bytes[0];
    for at in 0..45u8 {
        if FIRST_BYTES[usize::from(at)] == first {
            let mark = mark_of(at);
            let text = mark.text();
            if bytes.starts_with(text) {
                return Some((mark, text.len()));
            }
        }
    }
    None
}

// Whether a byte stands second in a mark of several.
#[inline]
fn is_second(b: u8) -> bool
    ensures { result ≡ shorts.is_second b }
{
    matches!(b, b'+' | b'-' | b'<' | b'=' | b'>' | b'&' | b'|')
}

#[inline]
fn separator(b: u8) -> Option<Mark>
    ensures value { option_map mark_number result ≡ shorts.separator b }
    ensures one { IfSome result (λ m. mark_len (mark_number m) ≡ 1) }
{
    match b {
        b'>' => Some(Mark::Greater),
        b'^' => Some(Mark::Caret),
        b'|' => Some(Mark::Bar),
        b'?' => Some(Mark::Question),
        b':' => Some(Mark::Colon),
        b';' => Some(Mark::Semicolon),
        b'=' => Some(Mark::Equal),
        b',' => Some(Mark::Comma),
        _ => None,
    }
}

#[inline]
fn sign(b: u8) -> Option<Mark>
    ensures value { option_map mark_number result ≡ shorts.sign b }
    ensures one { IfSome result (λ m. mark_len (mark_number m) ≡ 1) }
{
    match b {
        b'*' => Some(Mark::Star),
        b'+' => Some(Mark::Plus),
        b'-' => Some(Mark::Minus),
        b'~' => Some(Mark::Tilde),
        b'!' => Some(Mark::Exclamation),
        b'/' => Some(Mark::Slash),
        b'%' => Some(Mark::Percent),
        b'<' => Some(Mark::Less),
        _ => separator(b),
    }
}

// The mark of one byte that a byte is.
#[inline]
fn short(b: u8) -> Option<Mark>
    ensures value { option_map mark_number result ≡ shorts.short b }
    ensures one { IfSome result (λ m. mark_len (mark_number m) ≡ 1) }
{
    match b {
        b'(' => Some(Mark::LeftParen),
        b')' => Some(Mark::RightParen),
        b'[' => Some(Mark::LeftBracket),
        b']' => Some(Mark::RightBracket),
        b'{' => Some(Mark::LeftBrace),
        b'}' => Some(Mark::RightBrace),
        b'.' => Some(Mark::Dot),
        b'&' => Some(Mark::Ampersand),
        _ => sign(b),
    }
}

/// The mark that stands there, and its length.
#[inline]
pub fn mark_at(bytes: &[u8]) -> Option<(Mark, usize)>
    ensures value { option_map (λ p. mark_number p.0) result ≡ mark_at bytes.now }
    ensures len { IfSome result (λ p. p.1 ≡ mark_len (mark_number p.0)) }
    ensures within { IfSome result (λ p. (0 < p.1) × (p.1 ≤ length bytes.now)) }
{
    if bytes.is_empty() {
        return None;
    }
    if is_second(byte(bytes, 1)) {
        return longest_at(bytes);
    }
    match short(bytes[0]) {
        Some(mark) => Some((mark, 1)),
        None => None,
    }
}
