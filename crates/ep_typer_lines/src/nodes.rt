//! Statements of the core from their parts.

ghost use Rattle.std.specs.Prelude.{◌≡◌, IfOk};
ghost use Rattle.ep_core.specs.Program as core;
ghost use Rattle.ep_core.specs.View.{expr_view, what_view};
ghost use Rattle.ep_elaboration.specs.Statements as rule;
ghost use Rattle.ep_typer_lines.specs.View.{lines as lines_view};

use ep_ast::NamedOrder;
use ep_core::tree::{Expr, Stmt, What};
use ep_int::{Memory, Order};
use std::alloc::Global;

/// A list of one statement.
pub fn one_line(alloc: Global, line: u32, what: What) -> Result<Vec<Stmt>, Memory>
    ensures { IfOk result (λ v. lines_view v ≡ rule.one_line line (what_view what)) }
{
    let Ok(mut lines) = Vec::with_capacity(alloc, 1) else {
        return Err(Memory);
    };
    match lines.push(Stmt { line, what }) {
        Ok(()) => Ok(lines),
        Err(_) => Err(Memory),
    }
}

/// An `if`.
pub fn branched(test: Expr, then: Vec<Stmt>, otherwise: Vec<Stmt>) -> What
    ensures { what_view result
        ≡ core.if_else (expr_view test) (rule.to_core (lines_view then)) (rule.to_core (lines_view otherwise)) }
{
    What::If(test, then, otherwise)
}

/// A loop, of which the test may come after the first turn.
pub fn looped(tests_first: bool, test: Expr, turn: Vec<Stmt>, next: Vec<Stmt>) -> What
    ensures { what_view result
        ≡ core.loop tests_first (expr_view test) (rule.to_core (lines_view turn)) (rule.to_core (lines_view next)) }
{
    What::Loop(tests_first, test, turn, next)
}

/// Blocks that are there while statements run.
pub fn scoped(blocks: Vec<u32>, body: Vec<Stmt>) -> What
    ensures { what_view result ≡ core.scope blocks.items (rule.to_core (lines_view body)) }
{
    What::Scope(blocks, body)
}

/// The byte order of a name in a conditional.
pub fn order_of(order: NamedOrder) -> Order
    ensures { result ≡ rule.order_of order }
{
    match order {
        NamedOrder::Little => Order::Little,
        NamedOrder::Big => Order::Big,
    }
}

/// A byte-order conditional.
pub fn by_order(order: NamedOrder, then: Vec<Stmt>, otherwise: Vec<Stmt>) -> What
    ensures { what_view result
        ≡ core.by_order (rule.order_of order) (rule.to_core (lines_view then)) (rule.to_core (lines_view otherwise)) }
{
    What::ByOrder(order_of(order), then, otherwise)
}
