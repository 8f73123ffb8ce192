//! Assignments, and where results go.

ghost use Rattle.std.specs.Prelude.{◌≡◌, ◌||◌};
ghost use Rattle.ep_ast.specs.Mark.{mark_number};
ghost use Rattle.ep_core.specs.Program as core;
ghost use Rattle.ep_core.specs.View.{dest_view, place_view, what_view};
ghost use Rattle.ep_typing.specs.Operand as operands;
ghost use Rattle.ep_typing.specs.Results.{at};
ghost use Rattle.ep_typing.specs.Typing as rule;
ghost use Rattle.ep_operands.specs.Refinement.{Refines, Stops};
ghost use Rattle.ep_operands.specs.View as view;
ghost use Rattle.ep_stores.specs.Stores.{put_to, simply, updated_with};

use ep_ast::{Halt, Mark, RefusalKind};
use ep_core::tree::{Dest, Expr, Place, What};
use ep_layout::{Ty, Types};
use ep_operands::{
    Operand, Value, are_scalars, fitted, is_aggregate, is_array, is_mixed, is_pointer, is_void,
    known_number, number_of, refused, scalar_of, size_of_type, value_of,
};
use ep_operators::operated;
use ep_typing::CType;
use std::alloc::Global;

// What can be assigned to, but that a value isn't an object yet.
#[tactic(auto, unfolding(ep_typing::specs::Typing::assignable))]
fn assignable(line: u32, x: Operand) -> Result<Operand, Halt>
    ensures { Refines view.operand (at line (rule.assignable (view.operand x))) result }
{
    match x {
        Operand::Place(place, c) => {
            if is_void(c) | is_array(c) {
                return Err(refused(RefusalKind::TypeMismatch, line));
            }
            Ok(Operand::Place(place, c))
        }
        Operand::Value(v) => Ok(Operand::Value(v)),
        Operand::Function(_) => Err(refused(RefusalKind::TypeMismatch, line)),
    }
}

// Why nothing is stored to a value.
#[tactic(auto, unfolding(ep_typing::specs::Typing::not_stored))]
fn not_stored(line: u32, u: &Value, v: &Value) -> Halt
    ensures store { Stops (at line (simply (rule.not_stored (view.value u.now) (view.value v.now)))) result }
    ensures take { Stops (at line (rule.not_stored {A = core.Dest} (view.value u.now) (view.value v.now))) result }
{
    if !are_scalars(u.ty, v.ty) {
        return refused(RefusalKind::TypeMismatch, line);
    }
    if is_mixed(u.ty, v) {
        return refused(RefusalKind::PointerToInteger, line);
    }
    refused(RefusalKind::NotAnLvalue, line)
}

// A scalar is stored as of its object's type.
#[tactic(auto, unfolding(ep_typing::specs::Typing::stored))]
fn stored(alloc: Global, line: u32, x: Operand, v: Value) -> Result<What, Halt>
    ensures { Refines what_view (at line (simply (rule.stored (view.operand x) (view.value v)))) result }
{
    match x {
        Operand::Place(place, c) => {
            let expr = fitted(alloc, line, c, v)?;
            Ok(What::Assign(scalar_of(c), place, expr))
        }
        Operand::Value(u) => Err(not_stored(line, &u, &v)),
        Operand::Function(_) => Err(refused(RefusalKind::TypeMismatch, line)),
    }
}

// A struct or union is copied.
#[tactic(auto, unfolding(ep_typing::specs::Typing::copied))]
fn copied(types: &Types, line: u32, c: CType, to: Place, from: Place) -> Result<What, Halt>
    ensures { Refines what_view (at line (simply (rule.copied types.now c (place_view to) (place_view from)))) result }
{
    match size_of_type(types, c) {
        Some(_) => {
            let ty = known_number(types, Ty::Aggregate(number_of(c)));
            Ok(What::CopyAggregate(to, from, ty))
        }
        None => Err(refused(RefusalKind::IncompleteType, line)),
    }
}

fn moves_aggregate(c: CType, d: CType) -> bool
    ensures { result ≡ rule.moves_aggregate c d }
{
    is_aggregate(c) & (c == d)
}

// An operand to an object.
fn put_there(
    alloc: Global,
    types: &Types,
    line: u32,
    to: Place,
    c: CType,
    y: Operand,
) -> Result<What, Halt>
    ensures { Refines what_view (at line (simply (put_to types.now (place_view to) c (view.operand y)))) result }
{
    match y {
        Operand::Place(from, d) => {
            if moves_aggregate(c, d) {
                return copied(types, line, c, to, from);
            }
            let v = value_of(alloc, types, line, Operand::Place(from, d))?;
            stored(alloc, line, Operand::Place(to, c), v)
        }
        Operand::Value(v) => stored(alloc, line, Operand::Place(to, c), v),
        Operand::Function(_) => Err(refused(RefusalKind::TypeMismatch, line)),
    }
}

/// `=`.
#[tactic(auto, unfolding(ep_typing::specs::Typing::assigned))]
pub fn assigned(
    alloc: Global,
    types: &Types,
    line: u32,
    x: Operand,
    y: Operand,
) -> Result<What, Halt>
    ensures { Refines what_view (at line (simply (rule.assigned types.now (view.operand x) (view.operand y)))) result }
{
    match assignable(line, x)? {
        Operand::Place(to, c) => put_there(alloc, types, line, to, c, y),
        Operand::Value(u) => {
            let v = value_of(alloc, types, line, y)?;
            Err(not_stored(line, &u, &v))
        }
        Operand::Function(_) => Err(refused(RefusalKind::TypeMismatch, line)),
    }
}

/// An operator and `=`, by the operator's mark. `old` is the value of the left side.
pub fn updated(
    alloc: Global,
    types: &Types,
    line: u32,
    mark: Mark,
    x: Operand,
    old: Value,
    y: Operand,
) -> Result<What, Halt>
    ensures { Refines what_view (at line
        (simply (updated_with types.now (mark_number mark) (view.operand x) (view.value old)
        (view.operand y)))) result }
{
    let v = value_of(alloc, types, line, y)?;
    let w = operated(alloc, types, line, mark, old, v)?;
    assigned(alloc, types, line, x, Operand::Value(w))
}

/// What takes a result of a type.
#[tactic(auto, unfolding(ep_typing::specs::Typing::taken))]
pub fn taken(alloc: Global, line: u32, x: Operand, result_type: CType) -> Result<Dest, Halt>
    ensures { Refines dest_view (at line (rule.taken (view.operand x) result_type)) result }
{
    match x {
        Operand::Place(place, c) => {
            fitted(alloc, line, c, Value::unknown(Expr::Null, result_type))?;
            Ok(Dest {
                what: scalar_of(c),
                cast: is_pointer(c) & !(c == result_type),
                place,
            })
        }
        Operand::Value(u) => Err(not_stored(line, &u, &Value::unknown(Expr::Null, result_type))),
        Operand::Function(_) => Err(refused(RefusalKind::TypeMismatch, line)),
    }
}

/// What a compound assignment computes, by its mark.
pub fn operator_of(mark: Mark) -> Mark
    ensures { mark_number result ≡ rule.operator_of (mark_number mark) }
{
    match mark {
        Mark::PlusEqual => Mark::Plus,
        Mark::MinusEqual => Mark::Minus,
        Mark::StarEqual => Mark::Star,
        Mark::SlashEqual => Mark::Slash,
        Mark::PercentEqual => Mark::Percent,
        Mark::AmpersandEqual => Mark::Ampersand,
        Mark::BarEqual => Mark::Bar,
        Mark::CaretEqual => Mark::Caret,
        Mark::LeftShiftEqual => Mark::LeftShift,
        _ => Mark::RightShift,
    }
}
