//! Pointers that move, and what they point to.

ghost use Rattle.std.specs.Prelude.{◌≡◌, IfOk};
ghost use Rattle.ep_core.specs.View.{expr_view};
ghost use Rattle.ep_core.specs.Program as core;
ghost use Rattle.ep_typing.specs.Operand as values;
ghost use Rattle.ep_typing.specs.Operators as rule;
ghost use Rattle.ep_typing.specs.Parts.{pointed};
ghost use Rattle.ep_typing.specs.Results.{at};
ghost use Rattle.ep_operands.specs.Refinement.{Refines};
ghost use Rattle.ep_operands.specs.View as view;

use ep_ast::{Halt, RefusalKind};
use ep_core::tree::{Expr, Place};
use ep_layout::Types;
use ep_operands::{Operand, Value, is_pointer, refused, size_of_type, target};
use std::alloc::{AllocError, Global};

fn steps(
    alloc: Global,
    pointer: Value,
    unit: u32,
    count: Value,
    backwards: bool,
) -> Result<Value, AllocError>
    ensures { IfOk result (λ v. view.value v
        ≡ values.plain_value (core.ptr_add (expr_view pointer.expr) unit
        (expr_view count.expr) backwards) pointer.ty) }
{
    let ty = pointer.ty;
    let expr = Box::new(alloc, pointer.expr)?;
    let count = Box::new(alloc, count.expr)?;
    Ok(Value::unknown(Expr::PtrAdd(unit, backwards, expr, count), ty))
}

/// A pointer that is moved by a number of what it points to.
#[tactic(auto, unfolding(ep_typing::specs::Operators::moved))]
pub fn moved(
    alloc: Global,
    types: &Types,
    line: u32,
    pointer: Value,
    count: Value,
    backwards: bool,
) -> Result<Value, Halt>
    ensures { Refines view.value (at line
        (rule.moved types.now (view.value pointer) (view.value count) backwards)) result }
{
    match size_of_type(types, target(pointer.ty)) {
        Some(unit) => {
            let value = steps(alloc, pointer, unit, count, backwards)?;
            Ok(value)
        }
        None => Err(refused(RefusalKind::IncompleteType, line)),
    }
}

/// What a pointer points to.
#[tactic(auto, unfolding(ep_typing::specs::Parts::pointed))]
pub fn pointed(alloc: Global, line: u32, v: Value) -> Result<Operand, Halt>
    ensures { Refines view.operand (at line (pointed (view.value v))) result }
{
    if is_pointer(v.ty) {
        let ty = target(v.ty);
        let expr = Box::new(alloc, v.expr)?;
        return Ok(Operand::Place(Place::Deref(expr), ty));
    }
    Err(refused(RefusalKind::TypeMismatch, line))
}
