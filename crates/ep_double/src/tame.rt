//! Tame programs.

ghost use Rattle.std.specs.Prelude.{◌≡◌, ◌<◌, ◌≤◌, IsTrue, length, List, vec_len};
ghost use Rattle.std.specs.List.{list_all, list_any};
ghost use Rattle.std.specs.Option.{option_map};
ghost use Rattle.ep_core.specs.ProgramView.{program_view};
ghost use Rattle.ep_core.specs.View.{dest_view, expr_view, function_view, place_view, stmts_view, what_view};
ghost use Rattle.ep_kinds.specs.Tame as kind;

mod holders;
mod types;

use ep_core::program::{CoreProgram, Function};
use ep_core::tree::{Dest, Expr, Place, Stmt, What};
use ep_layout::Types;
use types::{are_tame_types, is_size_of_holder};

/// Whether no byte of a number is looked at by itself, and each pointer goes along one array. Takes no memory.
pub fn is_tame(p: &CoreProgram) -> bool
    ensures { result ≡ kind.is_tame (program_view p.now) }
{
    are_tame_types(&p.types) && are_tame_functions(&p.types, &p.functions)
}

fn are_tame_functions(types: &Types, functions: &[Function]) -> bool
    ensures { result ≡ list_all (λ f. kind.are_tame types.now (function_view f).body) functions.now }
{
    for f in functions {
        if !are_tame(types, &f.body) {
            return false;
        }
    }
    true
}

#[cycle(statements)]
fn are_tame(types: &Types, body: &[Stmt]) -> bool
    ensures { result ≡ kind.are_tame types.now (stmts_view body.now) }
{
    for s in body {
        if !is_tame_what(types, &s.what) {
            return false;
        }
    }
    true
}

#[cycle(statements)]
fn is_tame_what(types: &Types, what: &What) -> bool
    ensures { result ≡ kind.is_tame_what types.now (what_view what.now) }
{
    match what {
        What::Nothing => true,
        What::Eval(e) => is_tame_expr(types, e),
        What::Assign(_, a, e) => is_tame_place(types, a) && is_tame_expr(types, e),
        What::Clear(a, _) => is_tame_place(types, a),
        What::CopyAggregate(a, b, _) => is_tame_place(types, a) && is_tame_place(types, b),
        What::CopyBytes(_, _, _) => false,
        What::Fill(_, _, _) => false,
        What::Call(_, es, d) => are_tame_exprs(types, es) && is_tame_dest(types, d),
        What::Input(_, d) => is_tame_dest(types, d),
        What::Output(_, e) => is_tame_expr(types, e),
        What::ReadBytes(_, _) => false,
        What::WriteBytes(_, _) => false,
        What::If(e, a, b) => is_tame_expr(types, e) && (are_tame(types, a) && are_tame(types, b)),
        What::Loop(_, e, a, b) => {
            is_tame_expr(types, e) && (are_tame(types, a) && are_tame(types, b))
        }
        What::Break => true,
        What::Continue => true,
        What::Return(e) => is_tame_value(types, e),
        What::ByOrder(_, _, _) => false,
        What::Scope(_, a) => are_tame(types, a),
    }
}

fn is_tame_value(types: &Types, value: &Option<Expr>) -> bool
    ensures { result ≡ kind.is_tame_value types.now (option_map expr_view value.now) }
{
    match value {
        None => true,
        Some(e) => is_tame_expr(types, e),
    }
}

fn is_tame_dest(types: &Types, dest: &Option<Dest>) -> bool
    ensures { result ≡ kind.is_tame_dest types.now (option_map dest_view dest.now) }
{
    match dest {
        None => true,
        Some(d) => !d.cast && is_tame_place(types, &d.place),
    }
}

fn are_tame_exprs(types: &Types, es: &[Expr]) -> bool
    ensures { result ≡ list_all (λ e. kind.is_tame_expr types.now (expr_view e)) es.now }
{
    for e in es {
        if !is_tame_expr(types, e) {
            return false;
        }
    }
    true
}

#[cycle(expressions)]
fn is_tame_expr(types: &Types, e: &Expr) -> bool
    ensures { result ≡ kind.is_tame_expr types.now (expr_view e.now) }
{
    match e {
        Expr::Const(_, _) => true,
        Expr::Null => true,
        Expr::Load(_, a) => is_tame_place(types, a),
        Expr::AddrOf(a) => !through_member(a) && is_tame_place(types, a),
        Expr::Bin(_, _, a, b) => is_tame_expr(types, a) && is_tame_expr(types, b),
        Expr::Convert(_, e) => is_tame_expr(types, e),
        Expr::Compare(_, _, a, b) => is_tame_expr(types, a) && is_tame_expr(types, b),
        Expr::PtrCompare(_, a, b) => is_tame_expr(types, a) && is_tame_expr(types, b),
        Expr::And(a, b) => is_tame_expr(types, a) && is_tame_expr(types, b),
        Expr::Or(a, b) => is_tame_expr(types, a) && is_tame_expr(types, b),
        Expr::Not(e) => is_tame_expr(types, e),
        Expr::Cond(e, a, b) => {
            is_tame_expr(types, e) && (is_tame_expr(types, a) && is_tame_expr(types, b))
        }
        Expr::PtrAdd(unit, _, e, n) => {
            !is_size_of_holder(types, *unit) && (is_tame_expr(types, e) && is_tame_expr(types, n))
        }
        Expr::Cast(_) => false,
    }
}

#[cycle(expressions)]
fn is_tame_place(types: &Types, a: &Place) -> bool
    ensures { result ≡ kind.is_tame_place types.now (place_view a.now) }
{
    match a {
        Place::Block(_) => true,
        Place::Deref(e) => is_tame_expr(types, e),
        Place::Member(a, _) => is_tame_place(types, a),
        Place::Element(a, _, _, i) => is_tame_place(types, a) && is_tame_expr(types, i),
    }
}

fn through_member(a: &Place) -> bool
    ensures { result ≡ kind.through_member (place_view a.now) }
{
    match a {
        Place::Block(_) => false,
        Place::Deref(_) => false,
        Place::Member(_, _) => true,
        Place::Element(a, _, _, _) => through_member(a),
    }
}
