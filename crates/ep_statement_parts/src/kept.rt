//! Statements and parts of blocks that are kept while nothing in them is too deep.

ghost use Rattle.std.specs.Prelude.{◌≡◌, IfOk, List, ℕ, suc, Option, None, Some};
ghost use Rattle.ep_ast.specs.Expression.{Expr};
ghost use Rattle.ep_ast.specs.Declaration.{Declaration};
ghost use Rattle.ep_ast.specs.Statement as shape;
ghost use Rattle.ep_ast.specs.Statement.{First, Stmt, Part, stmt_of, part_of};
ghost use Rattle.ep_ast.specs.Depth.{in_stmt, in_part, height_of_parts};
ghost use Rattle.ep_expression_trees.specs.BoundedTrees as expressions;
ghost use Rattle.ep_reading.specs.Measured as measured;
ghost use Rattle.ep_declarations.specs.Answer.{ShowsDeclaration};
ghost use Rattle.ep_statement_parts.specs.Answer.{ShowsBlock};
ghost use Rattle.ep_statement_parts.specs.View.{body, Counts, IsEmpty, IsLonger, ShowsTest, ShowsGiven};
ghost use Rattle.ep_statement_parts.specs.View.{ShowsFirst, ShowsHeading};
ghost use Rattle.ep_statement_parts.specs.View.{ShowsStmt, ShowsPart, ShowsStmts, ShowsParts};

use ep_ast::{
    BlockItemTree, BlockTree, DeclarationTree, ExprTree, ForInitTree, HeadingTree, NamedOrder,
    StmtTree,
};
use ep_expression_trees::BoundedTree;
use ep_reading::Measured;
use std::alloc::{AllocError, Global};

/// What was read, or the line of the first in it that is too deep, and how many statements stand inside one another in
/// it, of which 65 are counted.
#[derive(Debug, Drop)]
pub struct Counted<T: Drop> {
    pub tree: Measured<T>,
    pub height: u32,
}

impl<T: Drop> Counted<Vec<T>> {
    /// None yet.
    pub fn new(alloc: Global) -> Counted<Vec<T>>
        ensures { IsEmpty result }
    {
        Counted {
            tree: Measured::Fits(Vec::new(alloc)),
            height: 0,
        }
    }

    /// With one more behind the others.
    pub fn longer(self, one: Counted<T>) -> Result<Counted<Vec<T>>, AllocError>
        ensures { IfOk result (IsLonger self one) }
    {
        let height = self.height.max(one.height);
        let tree = self.tree.longer(one.tree)?;
        Ok(Counted { tree, height })
    }
}

/// The test of a statement of this line.
pub fn test_of(line: u32, read: BoundedTree) -> Measured<ExprTree>
    ensures { (e : Expr) → expressions.Shows read e → ShowsTest line result e }
{
    match read.tree {
        Some(tree) => Measured::Fits(tree),
        None => Measured::TooDeep(line),
    }
}

/// An expression that could be missing in a statement of this line.
pub fn given_of(line: u32, read: BoundedTree) -> Measured<Option<ExprTree>>
    ensures { (e : Expr) → expressions.Shows read e → ShowsGiven line result (Some e) }
{
    match read.tree {
        Some(tree) => Measured::Fits(Some(tree)),
        None => Measured::TooDeep(line),
    }
}

/// The first part of a `for` that declares.
pub fn first_declares(tree: Measured<DeclarationTree>) -> Measured<ForInitTree>
    ensures { (line : ℕ) (d : Declaration) → ShowsDeclaration tree d → ShowsFirst line result (shape.declares d) }
{
    match tree {
        Measured::Fits(tree) => Measured::Fits(ForInitTree::Declaration(tree)),
        Measured::TooDeep(line) => Measured::TooDeep(line),
    }
}

/// The first part of a `for` that declares nothing.
pub fn first_evaluates(value: Measured<Option<ExprTree>>) -> Measured<ForInitTree>
    ensures { (line : ℕ) (o : Option Expr) → ShowsGiven line value o → ShowsFirst line result (shape.evaluates o) }
{
    match value {
        Measured::Fits(value) => Measured::Fits(ForInitTree::Expr(value)),
        Measured::TooDeep(line) => Measured::TooDeep(line),
    }
}

/// What stands in the parentheses of a `for`.
pub fn heading_from(
    first: Measured<ForInitTree>,
    test: Measured<Option<ExprTree>>,
    next: Measured<Option<ExprTree>>,
) -> Measured<HeadingTree>
    ensures { (line : ℕ) (f : First) (o q : Option Expr) → ShowsFirst line first f → ShowsGiven line test o
        → ShowsGiven line next q
        → ShowsHeading line result (f, o, q) }
{
    let tests = test.and(next);
    match tests.and(first) {
        Measured::Fits(parts) => Measured::Fits(HeadingTree {
            first: parts.1,
            test: parts.0.0,
            next: parts.0.1,
        }),
        Measured::TooDeep(line) => Measured::TooDeep(line),
    }
}

/// The count of a statement round what counts this.
pub fn over(height: u32) -> u32
    ensures { (n : ℕ) → Counts height n → Counts result (suc n) }
{
    if height < 65 { height + 1 } else { 65 }
}

/// A `break` of this line.
pub fn break_loop(line: u32) -> Counted<StmtTree>
    ensures { ShowsStmt result (shape.break_loop line) }
{
    Counted {
        tree: Measured::Fits(StmtTree::Break(line)),
        height: 1,
    }
}

/// A `continue` of this line.
pub fn continue_loop(line: u32) -> Counted<StmtTree>
    ensures { ShowsStmt result (shape.continue_loop line) }
{
    Counted {
        tree: Measured::Fits(StmtTree::Continue(line)),
        height: 1,
    }
}

/// A `return` of this line, with its value, if it has one.
pub fn return_value(line: u32, value: Measured<Option<ExprTree>>) -> Counted<StmtTree>
    ensures { (o : Option Expr) → ShowsGiven line value o → ShowsStmt result (shape.return_value line o) }
{
    let tree = match value {
        Measured::Fits(value) => Measured::Fits(StmtTree::Return(line, value)),
        Measured::TooDeep(line) => Measured::TooDeep(line),
    };
    Counted { tree, height: 1 }
}

/// An expression with its semicolon, or the semicolon alone.
pub fn evaluate(line: u32, value: Measured<Option<ExprTree>>) -> Counted<StmtTree>
    ensures { (o : Option Expr) → ShowsGiven line value o → ShowsStmt result (shape.evaluate line o) }
{
    let tree = match value {
        Measured::Fits(value) => Measured::Fits(StmtTree::Expr(line, value)),
        Measured::TooDeep(line) => Measured::TooDeep(line),
    };
    Counted { tree, height: 1 }
}

// The same list, with room for no more than it holds.
fn trimmed(items: Vec<BlockItemTree>) -> Vec<BlockItemTree>
    ensures { result.items ≡ items.items }
{
    let mut items = items;
    items.shrink_to_fit();
    items
}

fn block_tree(line: u32, height: u32, parts: Measured<Vec<BlockItemTree>>) -> Measured<StmtTree>
    ensures { (ps : List Part) → Counts height (suc (height_of_parts (shape.to_parts ps)))
        → measured.ShowsAll part_of in_part parts ps
        → measured.Shows stmt_of in_stmt result (shape.block line (shape.to_parts ps)) }
{
    if height > 64 {
        return Measured::TooDeep(line);
    }
    match parts {
        Measured::Fits(items) => Measured::Fits(StmtTree::new_block(line, trimmed(items))),
        Measured::TooDeep(line) => Measured::TooDeep(line),
    }
}

/// A block with these parts.
pub fn block_of(line: u32, parts: Counted<Vec<BlockItemTree>>) -> Counted<StmtTree>
    ensures { (ps : List Part) → ShowsParts parts ps → ShowsStmt result (shape.block line (shape.to_parts ps)) }
{
    let height = over(parts.height);
    let tree = block_tree(line, height, parts.tree);
    Counted { tree, height }
}

/// A declaration as a part of a block.
pub fn declares(tree: Measured<DeclarationTree>) -> Counted<BlockItemTree>
    ensures { (d : Declaration) → ShowsDeclaration tree d → ShowsPart result (shape.declares_in d) }
{
    let tree = match tree {
        Measured::Fits(tree) => Measured::Fits(BlockItemTree::Declaration(tree)),
        Measured::TooDeep(line) => Measured::TooDeep(line),
    };
    Counted { tree, height: 0 }
}

fn item_of(tree: Measured<StmtTree>) -> Measured<BlockItemTree>
    ensures { (s : Stmt) → measured.Shows stmt_of in_stmt tree s
        → measured.Shows part_of in_part result (shape.states s) }
{
    match tree {
        Measured::Fits(tree) => Measured::Fits(BlockItemTree::Statement(tree)),
        Measured::TooDeep(line) => Measured::TooDeep(line),
    }
}

/// A statement as a part of a block.
pub fn states(statement: Counted<StmtTree>) -> Counted<BlockItemTree>
    ensures { (s : Stmt) → ShowsStmt statement s → ShowsPart result (shape.states s) }
{
    let height = statement.height;
    let tree = item_of(statement.tree);
    Counted { tree, height }
}

fn arm_tree(line: u32, order: NamedOrder, then: Measured<Vec<StmtTree>>) -> Measured<BlockItemTree>
    ensures { (ss : List Stmt) → measured.ShowsAll stmt_of in_stmt then ss
        → measured.Shows part_of in_part result (shape.make_arms line order (shape.to_stmts ss) None) }
{
    match then {
        Measured::Fits(then) => { Measured::Fits(BlockItemTree::new_arms(line, order, then, None)) }
        Measured::TooDeep(line) => Measured::TooDeep(line),
    }
}

/// Statements for one byte order, with no `#else`.
pub fn one_arm(line: u32, order: NamedOrder, then: Counted<Vec<StmtTree>>) -> Counted<BlockItemTree>
    ensures { (ss : List Stmt) → ShowsStmts then ss
        → ShowsPart result (shape.make_arms line order (shape.to_stmts ss) None) }
{
    let height = then.height;
    let tree = arm_tree(line, order, then.tree);
    Counted { tree, height }
}

fn arms_tree(
    line: u32,
    order: NamedOrder,
    then: Measured<Vec<StmtTree>>,
    otherwise: Measured<Vec<StmtTree>>,
) -> Measured<BlockItemTree>
    ensures { (ss ts : List Stmt) → measured.ShowsAll stmt_of in_stmt then ss
        → measured.ShowsAll stmt_of in_stmt otherwise ts
        → measured.Shows part_of in_part result
        (shape.make_arms line order (shape.to_stmts ss) (Some (shape.to_stmts ts))) }
{
    match then.and(otherwise) {
        Measured::Fits(arms) => {
            Measured::Fits(BlockItemTree::new_arms(line, order, arms.0, Some(arms.1)))
        }
        Measured::TooDeep(line) => Measured::TooDeep(line),
    }
}

/// Statements for one byte order, and those behind the `#else`.
pub fn two_arms(
    line: u32,
    order: NamedOrder,
    then: Counted<Vec<StmtTree>>,
    otherwise: Counted<Vec<StmtTree>>,
) -> Counted<BlockItemTree>
    ensures { (ss ts : List Stmt) → ShowsStmts then ss → ShowsStmts otherwise ts
        → ShowsPart result (shape.make_arms line order (shape.to_stmts ss) (Some (shape.to_stmts ts))) }
{
    let height = then.height.max(otherwise.height);
    let tree = arms_tree(line, order, then.tree, otherwise.tree);
    Counted { tree, height }
}

fn body_of(line: u32, parts: Measured<Vec<BlockItemTree>>) -> Measured<BlockTree>
    ensures { (ps : List Part) → measured.ShowsAll part_of in_part parts ps → ShowsBlock result (body line ps) }
{
    match parts {
        Measured::Fits(items) => {
            let items = trimmed(items);
            Measured::Fits(BlockTree { line, items })
        }
        Measured::TooDeep(line) => Measured::TooDeep(line),
    }
}

/// The body of a function with these parts. A function's body is no statement, and its count is not asked.
pub fn block_tree_of(line: u32, parts: Counted<Vec<BlockItemTree>>) -> Measured<BlockTree>
    ensures { (ps : List Part) → ShowsParts parts ps → ShowsBlock result (body line ps) }
{
    body_of(line, parts.tree)
}
