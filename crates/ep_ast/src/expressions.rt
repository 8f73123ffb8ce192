//! Trees of expressions.

ghost use Rattle.std.specs.Prelude.{◌≡◌, map};
ghost use Rattle.ep_ast.specs.Expression as shape;

use crate::marks::Mark;
use crate::words::Word;

/// An integer constant: its value, whether it was written in decimal, and its suffix (`u`, and how many times `l`).
/// A character constant counts as decimal and has no suffix.
#[derive(Clone, Copy, Debug, PartialEq, Eq)]
pub struct Literal {
    pub value: u64,
    pub decimal: bool,
    pub unsigned: bool,
    pub longs: u8,
}

/// A type word without a body: an accepted word, a typedef name, or a `struct` or `union` word and its tag.
#[derive(Debug, Drop)]
pub enum TypeWordTree {
    Word(u32, Word),
    Name(u32, Vec<u8>),
    Tag(u32, Word, Vec<u8>),
}

/// The name of a type, in a cast or a `sizeof`. `stars` has for each `*` the number of `const` after it.
#[derive(Debug, Drop)]
pub struct TypeNameTree {
    pub line: u32,
    pub specs: Vec<TypeWordTree>,
    pub stars: Vec<u32>,
}

/// An expression. Each variant begins with its line, that of its first token, where parentheses round an expression
/// don't count.
#[derive(Debug, Drop)]
pub enum ExprTree {
    Assign(u32, Mark, Box<ExprTree>, Box<ExprTree>),
    Conditional(u32, Box<ExprTree>, Box<ExprTree>, Box<ExprTree>),
    Binary(u32, Mark, Box<ExprTree>, Box<ExprTree>),
    Cast(u32, Box<TypeNameTree>, Box<ExprTree>),
    Step(u32, Mark, Box<ExprTree>),
    Unary(u32, Mark, Box<ExprTree>),
    SizeofExpr(u32, Box<ExprTree>),
    SizeofType(u32, Box<TypeNameTree>),
    Index(u32, Box<ExprTree>, Box<ExprTree>),
    Call(u32, Box<ExprTree>, Vec<ExprTree>),
    Member(u32, Box<ExprTree>, Vec<u8>),
    Arrow(u32, Box<ExprTree>, Vec<u8>),
    PostIncrement(u32, Box<ExprTree>),
    PostDecrement(u32, Box<ExprTree>),
    Id(u32, Vec<u8>),
    Number(u32, Literal),
}

impl ExprTree {
    /// A call of what the tree before the brackets names.
    pub fn new_call(line: u32, callee: Box<ExprTree>, arguments: Vec<ExprTree>) -> ExprTree
        ensures { shape.expr result
            ≡ shape.call line (shape.expr callee.value) (shape.to_exprs (map shape.expr arguments.items)) }
    {
        ExprTree::Call(line, callee, arguments)
    }

    /// The line that the expression is on, as its refusals name it.
    pub fn line(&self) -> u32
        ensures { result ≡ shape.line_of (shape.expr self.now) }
    {
        match self {
            ExprTree::Assign(line, _, _, _)
            | ExprTree::Conditional(line, _, _, _)
            | ExprTree::Binary(line, _, _, _)
            | ExprTree::Cast(line, _, _)
            | ExprTree::Step(line, _, _)
            | ExprTree::Unary(line, _, _)
            | ExprTree::SizeofExpr(line, _)
            | ExprTree::SizeofType(line, _)
            | ExprTree::Index(line, _, _)
            | ExprTree::Call(line, _, _)
            | ExprTree::Member(line, _, _)
            | ExprTree::Arrow(line, _, _)
            | ExprTree::PostIncrement(line, _)
            | ExprTree::PostDecrement(line, _)
            | ExprTree::Id(line, _)
            | ExprTree::Number(line, _) => *line,
        }
    }
}
