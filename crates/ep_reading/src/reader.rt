//! What readers pass on, and what they answer.

ghost use Rattle.ep_ast.specs.Reading.{IsSyntax};

use crate::names::TypeNames;
use ep_ast::{Refusal, RefusalKind};
use ep_lexer::Token;
use std::alloc::Global;

/// What stays the same while a part is read: the names that are types there, and the line of the last of all tokens.
#[derive(Clone, Copy)]
pub struct Reader<'n> {
    pub alloc: Global,
    pub names: &'n TypeNames,
    pub last: u32,
}

impl Reader<'_> {
    /// The refusal of the first token here, or of the last of all where none is left.
    pub fn stopped(&self, tokens: &[Token<'_>]) -> Refusal
        ensures { IsSyntax result }
    {
        let line = match tokens {
            [] => self.last,
            [first, ..] => first.line,
        };
        Refusal::new(RefusalKind::Syntax, line)
    }
}

/// What was read of the first tokens, and the tokens behind it.
#[derive(Debug, Drop)]
pub struct Part<'a, T: Drop> {
    pub value: T,
    pub rest: &'a [Token<'a>],
}
