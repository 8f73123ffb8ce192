//! Tokens with their lines.

use ep_ast::{Literal, Mark, Word};

/// A token; a name is a piece of the source. The last four are directives: an `#if` of little or of big byte order,
/// `#else` and `#endif`.
#[derive(Debug, Drop)]
pub enum TokenKind<'a> {
    Word(Word),
    Name(&'a [u8]),
    Number(Literal),
    Mark(Mark),
    IfLittle,
    IfBig,
    Other,
    EndIf,
}

/// A token with the line on which it begins.
#[derive(Debug, Drop)]
pub struct Token<'a> {
    pub line: u32,
    pub what: TokenKind<'a>,
}

/// The tokens of a source, in their order.
#[derive(Debug, Drop)]
pub struct Tokens<'a> {
    pub list: Vec<Token<'a>>,
}
