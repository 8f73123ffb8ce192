//! Trees of statements.

ghost use Rattle.std.specs.Prelude.{◌≡◌, map};
ghost use Rattle.std.specs.Option.{option_map};
ghost use Rattle.ep_ast.specs.Expression.{expr};
ghost use Rattle.ep_ast.specs.Statement as shape;

use crate::NamedOrder;
use crate::declarations::{AggregateTree, DeclarationTree, HeadTree, TypedefTree};
use crate::expressions::ExprTree;

/// The body of a function. The line is that of its `{`.
#[derive(Debug, Drop)]
pub struct BlockTree {
    pub line: u32,
    pub items: Vec<BlockItemTree>,
}

/// A part of a block. `Arms` has statements by byte order: those of the order that its condition names, and those of
/// the
/// other where there is an `#else`; its line is that of the `#if`.
#[derive(Debug, Drop)]
#[cycle(statements)]
pub enum BlockItemTree {
    Declaration(DeclarationTree),
    Statement(StmtTree),
    Arms(u32, NamedOrder, Vec<StmtTree>, Option<Vec<StmtTree>>),
}

/// The first part of a `for`.
#[derive(Debug, Drop)]
pub enum ForInitTree {
    Declaration(DeclarationTree),
    Expr(Option<ExprTree>),
}

/// What stands in the parentheses of a `for`.
#[derive(Debug, Drop)]
pub struct HeadingTree {
    pub first: ForInitTree,
    pub test: Option<ExprTree>,
    pub next: Option<ExprTree>,
}

/// A statement. Each variant begins with its line, that of its first token.
#[derive(Debug, Drop)]
#[cycle(statements)]
pub enum StmtTree {
    Block(u32, Vec<BlockItemTree>),
    Expr(u32, Option<ExprTree>),
    If(u32, ExprTree, Box<StmtTree>, Option<Box<StmtTree>>),
    While(u32, ExprTree, Box<StmtTree>),
    Do(u32, Box<StmtTree>, ExprTree),
    For(u32, Box<HeadingTree>, Box<StmtTree>),
    Break(u32),
    Continue(u32),
    Return(u32, Option<ExprTree>),
}

/// A function with its body. The line is that of its name.
#[derive(Debug, Drop)]
pub struct FunctionTree {
    pub line: u32,
    pub head: HeadTree,
    pub body: BlockTree,
}

/// What stands at file scope.
#[derive(Debug, Drop)]
pub enum ItemTree {
    Typedef(TypedefTree),
    Function(FunctionTree),
    Prototype(HeadTree),
    Declaration(DeclarationTree),
    Aggregate(AggregateTree),
    Arms(u32, NamedOrder, Vec<FunctionTree>, Option<Vec<FunctionTree>>),
}

/// A whole program.
#[derive(Debug, Drop)]
pub struct ProgramTree {
    pub items: Vec<ItemTree>,
}

impl StmtTree {
    /// A block inside a function's body.
    pub fn new_block(line: u32, items: Vec<BlockItemTree>) -> StmtTree
        ensures { shape.stmt_of result ≡ shape.block line (shape.to_parts (map shape.part_of items.items)) }
    {
        StmtTree::Block(line, items)
    }

    /// An `if`, with an `else` where there is one.
    pub fn new_if(
        line: u32,
        test: ExprTree,
        then: Box<StmtTree>,
        otherwise: Option<Box<StmtTree>>,
    ) -> StmtTree
        ensures { shape.stmt_of result ≡ shape.make_if line (expr test) (shape.stmt_of then.value)
            (option_map (λ s. shape.stmt_of s.value) otherwise) }
    {
        StmtTree::If(line, test, then, otherwise)
    }
}

impl BlockItemTree {
    /// Statements by byte order.
    pub fn new_arms(
        line: u32,
        order: NamedOrder,
        then: Vec<StmtTree>,
        otherwise: Option<Vec<StmtTree>>,
    ) -> BlockItemTree
        ensures { shape.part_of result
            ≡ shape.make_arms line order (shape.statements then) (option_map shape.statements otherwise) }
    {
        BlockItemTree::Arms(line, order, then, otherwise)
    }
}
