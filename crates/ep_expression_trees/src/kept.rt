//! Trees that are kept while they are not too deep.

ghost use Rattle.std.specs.Prelude.{◌≡◌, ◌<◌, ◌≤◌, ◌+◌, ◌++◌, ◌∷◌, [], max, map, IfOk, List};
ghost use Rattle.ep_ast.specs.Expression as tree;
ghost use Rattle.ep_ast.specs.Expression.{Expr, to_exprs, line_of, type_name};
ghost use Rattle.ep_ast.specs.Grammar.{apply};
ghost use Rattle.ep_ast.specs.Grammar as grammar;
ghost use Rattle.ep_ast.specs.Mark.{mark_number};
ghost use Rattle.ep_expression_trees.specs.Measured.{ShowsExpr};
ghost use Rattle.ep_expression_trees.specs.BoundedTrees.{Shows, ShowsAll, ShowsSuffix, wrap};
ghost use Rattle.ep_expression_trees.specs.BoundedTrees.{Over, Pair, Three, WithAll, OneMore};
ghost use Rattle.ep_ast.specs.Nesting.{depth, heights, all_stars_in};

use ep_ast::{ExprTree, Literal, Mark, TypeNameTree};
use ep_reading::{Measured, pushed};
use std::alloc::{AllocError, Global};

/// An expression that was read: its line, its tree where that isn't too deep, and then how many operators stand inside
/// one another.
#[derive(Debug, Drop)]
pub struct BoundedTree {
    pub line: u32,
    pub tree: Option<ExprTree>,
    pub height: u32,
}

/// The arguments of a call, where none is too deep, and how many operators stand inside one another in them.
#[derive(Debug, Drop)]
pub struct Arguments {
    pub trees: Option<Vec<ExprTree>>,
    pub height: u32,
}

/// What stands behind an operand: an index, arguments, a member, a member through a pointer, `++` or `--`.
#[derive(Debug, Drop)]
pub enum Suffix {
    At(BoundedTree),
    With(Arguments),
    Of(Vec<u8>),
    Through(Vec<u8>),
    Increment,
    Decrement,
}

/// What stands before an operand, with its line: an operator, `++` or `--`, `sizeof`, or a type in parentheses.
#[derive(Debug, Drop)]
pub enum Prefix {
    Operator(u32, Mark),
    Step(u32, Mark),
    Sizeof(u32),
    Typed(u32, Box<TypeNameTree>),
}

impl BoundedTree {
    /// The tree, or its line where it is too deep.
    pub fn measured(self) -> Measured<ExprTree>
        ensures { (t : Expr) → Shows self t → ShowsExpr result t }
    {
        let line = self.line;
        match self.tree {
            Some(tree) => Measured::Fits(tree),
            None => Measured::TooDeep(line),
        }
    }
}

fn too_deep(line: u32) -> BoundedTree
    ensures { (t : Expr) → line ≡ line_of t → 64 < depth t → Shows result t }
{
    BoundedTree {
        line,
        tree: None,
        height: 0,
    }
}

/// The tree, and the height of a node over it, where that isn't too deep.
fn over(operand: BoundedTree) -> Option<(ExprTree, u32)>
    ensures { (t : Expr) → Shows operand t → Over result t }
{
    let height = operand.height;
    match operand.tree {
        Some(tree) => if height < 64 {
            Some((tree, height + 1))
        } else {
            None
        },
        None => None,
    }
}

/// The same of two trees.
fn both(left: BoundedTree, right: BoundedTree) -> Option<(ExprTree, ExprTree, u32)>
    ensures { (s t : Expr) → Shows left s → Shows right t → Pair result s t }
{
    let height = left.height.max(right.height);
    if height >= 64 {
        return None;
    }
    match left.tree {
        None => None,
        Some(a) => match right.tree {
            None => None,
            Some(b) => Some((a, b, height + 1)),
        },
    }
}

/// The same of three trees.
fn three(
    first: BoundedTree,
    second: BoundedTree,
    third: BoundedTree,
) -> Option<(ExprTree, ExprTree, ExprTree, u32)>
    ensures { (s t u : Expr) → Shows first s → Shows second t → Shows third u → Three result s t u }
{
    match (first.tree, second.tree, third.tree) {
        (Some(a), Some(b), Some(c)) => {
            let height = first.height.max(second.height.max(third.height));
            if height < 64 {
                Some((a, b, c, height + 1))
            } else {
                None
            }
        }
        _ => None,
    }
}

/// The same of a tree and arguments.
fn with_all(callee: BoundedTree, arguments: Arguments) -> Option<(ExprTree, Vec<ExprTree>, u32)>
    ensures { (s : Expr) → (ts : List Expr) → Shows callee s → ShowsAll arguments ts → WithAll result s ts }
{
    match (callee.tree, arguments.trees) {
        (Some(a), Some(all)) => {
            let height = callee.height.max(arguments.height);
            if height < 64 {
                Some((a, all, height + 1))
            } else {
                None
            }
        }
        _ => None,
    }
}

/// A name.
pub fn name(alloc: Global, line: u32, text: &[u8]) -> Result<BoundedTree, AllocError>
    ensures { IfOk result (λ k. Shows k (tree.id line text.now)) }
{
    let text = Vec::from_slice(alloc, text)?;
    Ok(BoundedTree {
        line,
        tree: Some(ExprTree::Id(line, text)),
        height: 0,
    })
}

/// A constant.
pub fn number(line: u32, literal: Literal) -> BoundedTree
    ensures { Shows result (tree.number line literal) }
{
    BoundedTree {
        line,
        tree: Some(ExprTree::Number(line, literal)),
        height: 0,
    }
}

/// The `sizeof` of a type.
pub fn size_of(line: u32, of: Box<TypeNameTree>) -> BoundedTree
    ensures { Shows result (tree.sizeof_type line (type_name of.value)) }
{
    if of.stars.len() <= 64 {
        BoundedTree {
            line,
            tree: Some(ExprTree::SizeofType(line, of)),
            height: 1,
        }
    } else {
        too_deep(line)
    }
}

/// An assignment by this mark.
pub fn assign(
    alloc: Global,
    mark: Mark,
    place: BoundedTree,
    value: BoundedTree,
) -> Result<BoundedTree, AllocError>
    ensures { (s t : Expr) → Shows place s → Shows value t
        → IfOk result (λ k. Shows k (tree.assign (line_of s) (mark_number mark) s t)) }
{
    let line = place.line;
    match both(place, value) {
        Some((a, b, height)) => {
            let a = Box::new(alloc, a)?;
            let b = Box::new(alloc, b)?;
            Ok(BoundedTree {
                line,
                tree: Some(ExprTree::Assign(line, mark, a, b)),
                height,
            })
        }
        None => Ok(too_deep(line)),
    }
}

/// Two operands with this operator between them.
pub fn binary(
    alloc: Global,
    mark: Mark,
    left: BoundedTree,
    right: BoundedTree,
) -> Result<BoundedTree, AllocError>
    ensures { (s t : Expr) → Shows left s → Shows right t
        → IfOk result (λ k. Shows k (tree.binary (line_of s) (mark_number mark) s t)) }
{
    let line = left.line;
    match both(left, right) {
        Some((a, b, height)) => {
            let a = Box::new(alloc, a)?;
            let b = Box::new(alloc, b)?;
            Ok(BoundedTree {
                line,
                tree: Some(ExprTree::Binary(line, mark, a, b)),
                height,
            })
        }
        None => Ok(too_deep(line)),
    }
}

fn index(alloc: Global, operand: BoundedTree, at: BoundedTree) -> Result<BoundedTree, AllocError>
    ensures { (s t : Expr) → Shows operand s → Shows at t → IfOk result (λ k. Shows k (tree.index (line_of s) s t)) }
{
    let line = operand.line;
    match both(operand, at) {
        Some((a, b, height)) => {
            let a = Box::new(alloc, a)?;
            let b = Box::new(alloc, b)?;
            Ok(BoundedTree {
                line,
                tree: Some(ExprTree::Index(line, a, b)),
                height,
            })
        }
        None => Ok(too_deep(line)),
    }
}

/// A conditional.
pub fn conditional(
    alloc: Global,
    test: BoundedTree,
    yes: BoundedTree,
    no: BoundedTree,
) -> Result<BoundedTree, AllocError>
    ensures { (s t u : Expr) → Shows test s → Shows yes t → Shows no u
        → IfOk result (λ k. Shows k (tree.conditional (line_of s) s t u)) }
{
    let line = test.line;
    match three(test, yes, no) {
        Some((a, b, c, height)) => {
            let a = Box::new(alloc, a)?;
            let b = Box::new(alloc, b)?;
            let c = Box::new(alloc, c)?;
            Ok(BoundedTree {
                line,
                tree: Some(ExprTree::Conditional(line, a, b, c)),
                height,
            })
        }
        None => Ok(too_deep(line)),
    }
}

fn call(alloc: Global, callee: BoundedTree, arguments: Arguments) -> Result<BoundedTree, AllocError>
    ensures { (s : Expr) → (ts : List Expr) → Shows callee s → ShowsAll arguments ts
        → IfOk result (λ k. Shows k (tree.call (line_of s) s (to_exprs ts))) }
{
    let line = callee.line;
    match with_all(callee, arguments) {
        Some((a, all, height)) => {
            let a = Box::new(alloc, a)?;
            Ok(BoundedTree {
                line,
                tree: Some(ExprTree::new_call(line, a, all)),
                height,
            })
        }
        None => Ok(too_deep(line)),
    }
}

fn member(alloc: Global, text: Vec<u8>, operand: BoundedTree) -> Result<BoundedTree, AllocError>
    ensures { (t : Expr) → Shows operand t → IfOk result (λ k. Shows k ((tree.member (line_of t) t text.items))) }
{
    let line = operand.line;
    match over(operand) {
        Some((a, height)) => {
            let a = Box::new(alloc, a)?;
            Ok(BoundedTree {
                line,
                tree: Some(ExprTree::Member(line, a, text)),
                height,
            })
        }
        None => Ok(too_deep(line)),
    }
}

fn arrow(alloc: Global, text: Vec<u8>, operand: BoundedTree) -> Result<BoundedTree, AllocError>
    ensures { (t : Expr) → Shows operand t → IfOk result (λ k. Shows k ((tree.arrow (line_of t) t text.items))) }
{
    let line = operand.line;
    match over(operand) {
        Some((a, height)) => {
            let a = Box::new(alloc, a)?;
            Ok(BoundedTree {
                line,
                tree: Some(ExprTree::Arrow(line, a, text)),
                height,
            })
        }
        None => Ok(too_deep(line)),
    }
}

fn increment(alloc: Global, operand: BoundedTree) -> Result<BoundedTree, AllocError>
    ensures { (t : Expr) → Shows operand t → IfOk result (λ k. Shows k ((tree.post_increment (line_of t) t))) }
{
    let line = operand.line;
    match over(operand) {
        Some((a, height)) => {
            let a = Box::new(alloc, a)?;
            Ok(BoundedTree {
                line,
                tree: Some(ExprTree::PostIncrement(line, a)),
                height,
            })
        }
        None => Ok(too_deep(line)),
    }
}

fn decrement(alloc: Global, operand: BoundedTree) -> Result<BoundedTree, AllocError>
    ensures { (t : Expr) → Shows operand t → IfOk result (λ k. Shows k ((tree.post_decrement (line_of t) t))) }
{
    let line = operand.line;
    match over(operand) {
        Some((a, height)) => {
            let a = Box::new(alloc, a)?;
            Ok(BoundedTree {
                line,
                tree: Some(ExprTree::PostDecrement(line, a)),
                height,
            })
        }
        None => Ok(too_deep(line)),
    }
}

fn unary(
    alloc: Global,
    line: u32,
    mark: Mark,
    operand: BoundedTree,
) -> Result<BoundedTree, AllocError>
    ensures { (t : Expr) → Shows operand t → IfOk result (λ k. Shows k (tree.unary line (mark_number mark) t)) }
{
    match over(operand) {
        Some((a, height)) => {
            let a = Box::new(alloc, a)?;
            Ok(BoundedTree {
                line,
                tree: Some(ExprTree::Unary(line, mark, a)),
                height,
            })
        }
        None => Ok(too_deep(line)),
    }
}

fn step(
    alloc: Global,
    line: u32,
    mark: Mark,
    operand: BoundedTree,
) -> Result<BoundedTree, AllocError>
    ensures { (t : Expr) → Shows operand t → IfOk result (λ k. Shows k (tree.step line (mark_number mark) t)) }
{
    match over(operand) {
        Some((a, height)) => {
            let a = Box::new(alloc, a)?;
            Ok(BoundedTree {
                line,
                tree: Some(ExprTree::Step(line, mark, a)),
                height,
            })
        }
        None => Ok(too_deep(line)),
    }
}

fn size_of_value(alloc: Global, line: u32, operand: BoundedTree) -> Result<BoundedTree, AllocError>
    ensures { (t : Expr) → Shows operand t → IfOk result (λ k. Shows k (tree.sizeof_expr line t)) }
{
    match over(operand) {
        Some((a, height)) => {
            let a = Box::new(alloc, a)?;
            Ok(BoundedTree {
                line,
                tree: Some(ExprTree::SizeofExpr(line, a)),
                height,
            })
        }
        None => Ok(too_deep(line)),
    }
}

fn cast(
    alloc: Global,
    line: u32,
    to: Box<TypeNameTree>,
    operand: BoundedTree,
) -> Result<BoundedTree, AllocError>
    ensures { (t : Expr) → Shows operand t → IfOk result (λ k. Shows k (tree.cast line (type_name to.value) t)) }
{
    if to.stars.len() > 64 {
        return Ok(too_deep(line));
    }
    match over(operand) {
        Some((a, height)) => {
            let a = Box::new(alloc, a)?;
            Ok(BoundedTree {
                line,
                tree: Some(ExprTree::Cast(line, to, a)),
                height,
            })
        }
        None => Ok(too_deep(line)),
    }
}

/// The operand with this before it.
pub fn prefixed(
    alloc: Global,
    prefix: Prefix,
    operand: BoundedTree,
) -> Result<BoundedTree, AllocError>
    ensures { (t : Expr) → Shows operand t → IfOk result (λ k. Shows k (wrap prefix t)) }
{
    match prefix {
        Prefix::Operator(line, mark) => unary(alloc, line, mark, operand),
        Prefix::Step(line, mark) => step(alloc, line, mark, operand),
        Prefix::Sizeof(line) => size_of_value(alloc, line, operand),
        Prefix::Typed(line, to) => cast(alloc, line, to, operand),
    }
}

/// The operand with this behind it.
pub fn suffixed(
    alloc: Global,
    operand: BoundedTree,
    suffix: Suffix,
) -> Result<BoundedTree, AllocError>
    ensures { (t : Expr) → (s : grammar.Suffix) → Shows operand t → ShowsSuffix suffix s
        → IfOk result (λ k. Shows k (apply s t)) }
{
    match suffix {
        Suffix::At(at) => index(alloc, operand, at),
        Suffix::With(arguments) => call(alloc, operand, arguments),
        Suffix::Of(text) => member(alloc, text, operand),
        Suffix::Through(text) => arrow(alloc, text, operand),
        Suffix::Increment => increment(alloc, operand),
        Suffix::Decrement => decrement(alloc, operand),
    }
}

/// The arguments and one more, and their height, where none is too deep.
fn one_more(all: Arguments, one: BoundedTree) -> Option<(Vec<ExprTree>, ExprTree, u32)>
    ensures { (ts : List Expr) → (t : Expr) → ShowsAll all ts → Shows one t → OneMore result ts t }
{
    match (all.trees, one.tree) {
        (Some(trees), Some(tree)) => Some((trees, tree, all.height.max(one.height))),
        _ => None,
    }
}

impl Arguments {
    fn too_deep() -> Arguments
        ensures { (ts : List Expr) → 64 < max (heights (to_exprs ts)) (all_stars_in (to_exprs ts))
            → ShowsAll result ts }
    {
        Arguments {
            trees: None,
            height: 0,
        }
    }

    /// No arguments.
    pub fn new(alloc: Global) -> Arguments
        ensures { ShowsAll result [] }
    {
        Arguments {
            trees: Some(Vec::new(alloc)),
            height: 0,
        }
    }

    /// With one argument more.
    pub fn with(self, argument: BoundedTree) -> Result<Arguments, AllocError>
        ensures { (ts : List Expr) → (t : Expr) → ShowsAll self ts → Shows argument t
            → IfOk result (λ a. ShowsAll a (ts ++ t ∷ [])) }
    {
        match one_more(self, argument) {
            Some((trees, tree, height)) => {
                let trees = pushed(trees, tree)?;
                Ok(Arguments {
                    trees: Some(trees),
                    height,
                })
            }
            None => Ok(Arguments::too_deep()),
        }
    }
}
