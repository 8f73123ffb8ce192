//! `if` statements and loops.

ghost use Rattle.std.specs.Prelude.{IfOk, ℕ, Option};
ghost use Rattle.ep_ast.specs.Expression.{Expr};
ghost use Rattle.ep_ast.specs.Statement as shape;
ghost use Rattle.ep_ast.specs.Statement.{First, Stmt, stmt_of};
ghost use Rattle.ep_ast.specs.Depth.{in_stmt};
ghost use Rattle.ep_reading.specs.Measured as measured;
ghost use Rattle.ep_statement_parts.specs.View.{Counts, ShowsTest, ShowsHeading, ShowsStmt};
ghost use Rattle.ep_branches_and_loops.specs.Headed.{ShowsTested, ShowsBoth, ShowsHeaded};

use ep_ast::{ExprTree, HeadingTree, StmtTree};
use ep_reading::Measured;
use ep_statement_parts::{Counted, over};
use std::alloc::{AllocError, Global};

/// The test and the statement inside, where the statement of this line and count isn't too deep itself.
fn with_test(
    line: u32,
    height: u32,
    test: Measured<ExprTree>,
    inner: Measured<StmtTree>,
) -> Measured<(ExprTree, StmtTree)>
    ensures { (n : ℕ) (e : Expr) (s : Stmt) → Counts height n → ShowsTest line test e
        → measured.Shows stmt_of in_stmt inner s
        → ShowsTested n line result (e, s) }
{
    if height > 64 {
        return Measured::TooDeep(line);
    }
    test.and(inner)
}

/// A `while` loop of this line.
pub fn while_loop(
    alloc: Global,
    line: u32,
    test: Measured<ExprTree>,
    turn: Counted<StmtTree>,
) -> Result<Counted<StmtTree>, AllocError>
    ensures { (e : Expr) (s : Stmt) → ShowsTest line test e → ShowsStmt turn s
        → IfOk result (λ k. ShowsStmt k (shape.while_loop line e s)) }
{
    let height = over(turn.height);
    match with_test(line, height, test, turn.tree) {
        Measured::Fits(parts) => {
            let turn = Box::new(alloc, parts.1)?;
            let tree = StmtTree::While(line, parts.0, turn);
            Ok(Counted {
                tree: Measured::Fits(tree),
                height,
            })
        }
        Measured::TooDeep(line) => Ok(Counted {
            tree: Measured::TooDeep(line),
            height,
        }),
    }
}

/// A `do` loop of this line.
pub fn do_loop(
    alloc: Global,
    line: u32,
    turn: Counted<StmtTree>,
    test: Measured<ExprTree>,
) -> Result<Counted<StmtTree>, AllocError>
    ensures { (e : Expr) (s : Stmt) → ShowsStmt turn s → ShowsTest line test e
        → IfOk result (λ k. ShowsStmt k (shape.do_loop line s e)) }
{
    let height = over(turn.height);
    match with_test(line, height, test, turn.tree) {
        Measured::Fits(parts) => {
            let turn = Box::new(alloc, parts.1)?;
            let tree = StmtTree::Do(line, turn, parts.0);
            Ok(Counted {
                tree: Measured::Fits(tree),
                height,
            })
        }
        Measured::TooDeep(line) => Ok(Counted {
            tree: Measured::TooDeep(line),
            height,
        }),
    }
}

/// An `if` of this line without an `else`.
pub fn if_then(
    alloc: Global,
    line: u32,
    test: Measured<ExprTree>,
    then: Counted<StmtTree>,
) -> Result<Counted<StmtTree>, AllocError>
    ensures { (e : Expr) (s : Stmt) → ShowsTest line test e → ShowsStmt then s
        → IfOk result (λ k. ShowsStmt k (shape.if_then line e s)) }
{
    let height = over(then.height);
    match with_test(line, height, test, then.tree) {
        Measured::Fits(parts) => {
            let then = Box::new(alloc, parts.1)?;
            let tree = StmtTree::new_if(line, parts.0, then, None);
            Ok(Counted {
                tree: Measured::Fits(tree),
                height,
            })
        }
        Measured::TooDeep(line) => Ok(Counted {
            tree: Measured::TooDeep(line),
            height,
        }),
    }
}

/// The parts of an `if`, and then the statement behind its `else`.
fn with_else(
    parts: Measured<(ExprTree, StmtTree)>,
    otherwise: Measured<StmtTree>,
) -> Measured<((ExprTree, StmtTree), StmtTree)>
    ensures { (n line : ℕ) (e : Expr) (s t : Stmt) → ShowsTested n line parts (e, s)
        → measured.Shows stmt_of in_stmt otherwise t
        → ShowsBoth n line result ((e, s), t) }
{
    parts.and(otherwise)
}

/// An `if` of this line with its `else`.
pub fn if_else(
    alloc: Global,
    line: u32,
    test: Measured<ExprTree>,
    then: Counted<StmtTree>,
    otherwise: Counted<StmtTree>,
) -> Result<Counted<StmtTree>, AllocError>
    ensures { (e : Expr) (s t : Stmt) → ShowsTest line test e → ShowsStmt then s → ShowsStmt otherwise t
        → IfOk result (λ k. ShowsStmt k (shape.if_else line e s t)) }
{
    let height = over(then.height.max(otherwise.height));
    let parts = with_test(line, height, test, then.tree);
    match with_else(parts, otherwise.tree) {
        Measured::Fits((parts, last)) => {
            let then = Box::new(alloc, parts.1)?;
            let otherwise = Box::new(alloc, last)?;
            let tree = StmtTree::new_if(line, parts.0, then, Some(otherwise));
            Ok(Counted {
                tree: Measured::Fits(tree),
                height,
            })
        }
        Measured::TooDeep(line) => Ok(Counted {
            tree: Measured::TooDeep(line),
            height,
        }),
    }
}

/// What stands in parentheses and the statement inside, where the `for` of this line and count isn't too deep itself.
fn with_heading(
    line: u32,
    height: u32,
    heading: Measured<HeadingTree>,
    inner: Measured<StmtTree>,
) -> Measured<(HeadingTree, StmtTree)>
    ensures { (n : ℕ) (p : First × Option Expr × Option Expr) (s : Stmt) → Counts height n → ShowsHeading line heading p
        → measured.Shows stmt_of in_stmt inner s → ShowsHeaded n line result (p, s) }
{
    if height > 64 {
        return Measured::TooDeep(line);
    }
    heading.and(inner)
}

/// A `for` loop of this line.
pub fn for_loop(
    alloc: Global,
    line: u32,
    heading: Measured<HeadingTree>,
    turn: Counted<StmtTree>,
) -> Result<Counted<StmtTree>, AllocError>
    ensures { (p : First × Option Expr × Option Expr) (s : Stmt) → ShowsHeading line heading p → ShowsStmt turn s
        → IfOk result (λ k. ShowsStmt k (shape.for_loop line p.0 p.1 p.2 s)) }
{
    let height = over(turn.height);
    match with_heading(line, height, heading, turn.tree) {
        Measured::Fits((parts, turn)) => {
            let heading = Box::new(alloc, parts)?;
            let turn = Box::new(alloc, turn)?;
            let tree = StmtTree::For(line, heading, turn);
            Ok(Counted {
                tree: Measured::Fits(tree),
                height,
            })
        }
        Measured::TooDeep(line) => Ok(Counted {
            tree: Measured::TooDeep(line),
            height,
        }),
    }
}
