//! Calls of functions by their places in the program.

ghost use Rattle.std.specs.Prelude.{◌≡◌, ℕ, false, map, slice_index};
ghost use Rattle.ep_core.specs.View.{function_view, stmts_view, what_view};
ghost use Rattle.ep_elaboration.specs.Programs as rule;
ghost use Rattle.ep_typer_checks.specs.Placed as placed;

use ep_core::program::Function;
use ep_core::tree::{Stmt, What};
use std::mem::replace;

pub(crate) fn place(places: &[u32], f: u32) -> u32
    ensures { result ≡ slice_index places.now f }
{
    match places.get(f as usize) {
        Some(place) => *place,
        None => 0,
    }
}

#[cycle(renumbering)]
#[tactic(auto, unfolding(ep_elaboration::specs::Programs::renumbered_what))]
fn renumbered_what(places: &[u32], what: What) -> What
    ensures { what_view result ≡ rule.renumbered_what (placed.place places.now) (what_view what) }
{
    match what {
        What::Nothing => What::Nothing,
        What::Eval(e) => What::Eval(e),
        What::Assign(t, to, e) => What::Assign(t, to, e),
        What::Clear(to, ty) => What::Clear(to, ty),
        What::CopyAggregate(to, from, ty) => What::CopyAggregate(to, from, ty),
        What::CopyBytes(to, from, count) => What::CopyBytes(to, from, count),
        What::Fill(to, byte, count) => What::Fill(to, byte, count),
        What::Call(f, arguments, dest) => What::Call(place(places, f), arguments, dest),
        What::Input(t, dest) => What::Input(t, dest),
        What::Output(t, e) => What::Output(t, e),
        What::ReadBytes(to, count) => What::ReadBytes(to, count),
        What::WriteBytes(from, count) => What::WriteBytes(from, count),
        What::If(test, then, otherwise) => {
            let then = renumbered(places, then);
            let otherwise = renumbered(places, otherwise);
            What::If(test, then, otherwise)
        }
        What::Loop(tests_first, test, body, next) => {
            let body = renumbered(places, body);
            let next = renumbered(places, next);
            What::Loop(tests_first, test, body, next)
        }
        What::Break => What::Break,
        What::Continue => What::Continue,
        What::Return(e) => What::Return(e),
        What::ByOrder(order, then, otherwise) => {
            let then = renumbered(places, then);
            let otherwise = renumbered(places, otherwise);
            What::ByOrder(order, then, otherwise)
        }
        What::Scope(blocks, body) => {
            let body = renumbered(places, body);
            What::Scope(blocks, body)
        }
    }
}

// Whether a call may stand in it.
#[tactic(auto, unfolding(ep_elaboration::specs::Programs::renumbered_what))]
fn may_call(what: &What) -> bool
    ensures { result ≡ false → (to : ℕ → ℕ) → rule.renumbered_what to (what_view what.now) ≡ what_view what.now }
{
    match what {
        What::Nothing => false,
        What::Eval(_) => false,
        What::Assign(_, _, _) => false,
        What::Clear(_, _) => false,
        What::CopyAggregate(_, _, _) => false,
        What::CopyBytes(_, _, _) => false,
        What::Fill(_, _, _) => false,
        What::Call(_, _, _) => true,
        What::Input(_, _) => false,
        What::Output(_, _) => false,
        What::ReadBytes(_, _) => false,
        What::WriteBytes(_, _) => false,
        What::If(_, _, _) => true,
        What::Loop(_, _, _, _) => true,
        What::Break => false,
        What::Continue => false,
        What::Return(_) => false,
        What::ByOrder(_, _, _) => true,
        What::Scope(_, _) => true,
    }
}

#[cycle(renumbering)]
fn renumber_statement(places: &[u32], statement: &mut Stmt)
    ensures line { statement.new.line ≡ statement.old.line }
    ensures what { what_view statement.new.what
        ≡ rule.renumbered_what (placed.place places.now) (what_view statement.old.what) }
{
    if !may_call(&statement.what) {
        return;
    }
    let what = replace(&mut statement.what, What::Nothing);
    statement.what = renumbered_what(places, what);
}

// Where they stand: a second list of them would be the most that reading takes.
#[cycle(renumbering)]
#[tactic(auto, unfolding(ep_elaboration::specs::Programs::renumbered))]
fn renumbered(places: &[u32], list: Vec<Stmt>) -> Vec<Stmt>
    ensures { stmts_view result.items ≡ rule.renumbered (placed.place places.now) (stmts_view list.items) }
{
    let mut list = list;
    for i in 0..list.len() {
        renumber_statement(places, &mut list[i]);
    }
    list
}

/// A function whose calls go by places.
pub(crate) fn renumbered_function(places: &[u32], function: Function) -> Function
    ensures { function_view result
        ≡ placed.renumbered_function (placed.place places.now) (function_view function) }
{
    let body = renumbered(places, function.body);
    Function {
        name: function.name,
        line: function.line,
        params: function.params,
        result: function.result,
        locals: function.locals,
        body,
    }
}
