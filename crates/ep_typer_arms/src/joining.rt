//! Functions with one body for each byte order.

ghost use Rattle.std.specs.Prelude.{◌≡◌, map, IfOk};
ghost use Rattle.ep_ast.specs.Statement.{function_of};
ghost use Rattle.ep_core.specs.Program as core;
ghost use Rattle.ep_core.specs.View.{stmts_view, what_view};
ghost use Rattle.ep_defined.specs.View.{defined as defined_view};
ghost use Rattle.ep_elaboration.specs.Functions as rule;
ghost use Rattle.ep_elaboration.specs.Statements as statements;
ghost use Rattle.ep_typer_functions.specs.BodyView as view;

use ep_ast::{FunctionTree, NamedOrder};
use ep_core::program::Function;
use ep_core::tree::{Stmt, What};
use ep_defined::Defined;
use ep_typer_functions::Body;
use ep_typer_lines::order_of;
use std::alloc::{AllocError, Global};

fn by_order(order: NamedOrder, then: Vec<Stmt>, otherwise: Vec<Stmt>) -> What
    ensures { what_view result
        ≡ core.by_order (statements.order_of order) (stmts_view then.items) (stmts_view otherwise.items) }
{
    What::ByOrder(order_of(order), then, otherwise)
}

fn scope(blocks: Vec<u32>, body: Vec<Stmt>) -> What
    ensures { what_view result ≡ core.scope blocks.items (stmts_view body.items) }
{
    What::Scope(blocks, body)
}

fn one_line(alloc: Global, line: u32, what: What) -> Result<Vec<Stmt>, AllocError>
    ensures { IfOk result (λ v. stmts_view v.items ≡ core.more line (what_view what) core.stop) }
{
    let mut lines = Vec::with_capacity(alloc, 1)?;
    lines.push(Stmt { line, what })?;
    Ok(lines)
}

// A body in a scope of its own.
fn scoped(
    alloc: Global,
    line: u32,
    locals: Vec<u32>,
    body: Vec<Stmt>,
) -> Result<Vec<Stmt>, AllocError>
    ensures { IfOk result (λ v. stmts_view v.items ≡ rule.scoped line locals.items (stmts_view body.items)) }
{
    one_line(alloc, line, scope(locals, body))
}

// A function with the body of another for other machines than those of the order.
fn joined(
    alloc: Global,
    line: u32,
    order: NamedOrder,
    begins: u32,
    one: Defined,
    other: Body,
) -> Result<Defined, AllocError>
    ensures { IfOk result (λ d. defined_view d
        ≡ rule.joined line order begins (defined_view one) (view.body other)) }
{
    let function = one.function;
    let then = scoped(alloc, begins, function.locals, function.body)?;
    let otherwise = scoped(alloc, other.line, other.locals, other.stmts)?;
    let body = one_line(alloc, line, by_order(order, then, otherwise))?;
    Ok(Defined {
        number: one.number,
        first: one.first,
        function: Function {
            name: function.name,
            line: function.line,
            params: function.params,
            result: function.result,
            locals: Vec::new(alloc),
            body,
        },
    })
}

/// The functions of two arms, whose first has these trees, each pair as one.
pub(crate) fn all_joined(
    alloc: Global,
    line: u32,
    order: NamedOrder,
    trees: &[FunctionTree],
    defined: Vec<Defined>,
    bodies: Vec<Body>,
) -> Result<Vec<Defined>, AllocError>
    ensures { IfOk result (λ v. map defined_view v.items ≡ rule.all_joined line order (map function_of trees.now)
        (map defined_view defined.items) (map view.body bodies.items)) }
{
    let mut all = Vec::new(alloc);
    let mut ones = defined.into_iter();
    let mut others = bodies.into_iter();
    for tree in trees {
        match ones.next() {
            None => return Ok(all),
            Some(one) => match others.next() {
                None => return Ok(all),
                Some(other) => {
                    let both = joined(alloc, line, order, tree.body.line, one, other)?;
                    all.push(both)?;
                }
            },
        }
    }
    Ok(all)
}
