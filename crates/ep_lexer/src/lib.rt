//! Cutting a source into its tokens.
#![tactic(auto)]

mod bytes;
mod definitions;
mod directives;
mod lexer;
mod numbers;
mod things;
mod tokens;
mod words;

pub use ep_ast::Literal;
pub use lexer::lex;
pub use tokens::{Token, TokenKind, Tokens};
