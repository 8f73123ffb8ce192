//! Elements.

ghost use Rattle.std.specs.Prelude.{◌≡◌};
ghost use Rattle.ep_core.specs.View.{place_view};
ghost use Rattle.ep_typing.specs.Parts as rule;
ghost use Rattle.ep_typing.specs.Results.{at};
ghost use Rattle.ep_operands.specs.Refinement.{Refines};
ghost use Rattle.ep_operands.specs.View as view;

use crate::pointers::{moved, pointed};
use ep_ast::{Halt, RefusalKind};
use ep_core::tree::Place;
use ep_layout::Types;
use ep_operands::{
    Operand, Value, bound_of, element_of, is_array, is_integer, is_pointer, refused, size_of_type,
    value_of,
};
use ep_typing::CType;
use std::alloc::Global;

fn is_array_object(x: &Operand) -> bool
    ensures { result ≡ rule.is_array_object (view.operand x.now) }
{
    match x {
        Operand::Place(_, c) => is_array(*c),
        Operand::Value(_) => false,
        Operand::Function(_) => false,
    }
}

/// What stands before an index: an array in place, else a value.
#[tactic(auto, unfolding(ep_typing::specs::Parts::indexable))]
pub fn indexable(alloc: Global, types: &Types, line: u32, x: Operand) -> Result<Operand, Halt>
    ensures { Refines view.operand (at line (rule.indexable types.now (view.operand x))) result }
{
    if is_array_object(&x) {
        return Ok(x);
    }
    let value = value_of(alloc, types, line, x)?;
    Ok(Operand::Value(value))
}

// An element of an array in place.
#[tactic(auto, unfolding(ep_typing::specs::Parts::element_of_array))]
fn element_of_array(
    alloc: Global,
    types: &Types,
    line: u32,
    array: Place,
    c: CType,
    index: Value,
) -> Result<Operand, Halt>
    ensures { Refines view.operand (at line
        (rule.element_of_array types.now (place_view array) c (view.value index))) result }
{
    let element = element_of(types, c);
    match size_of_type(types, element) {
        Some(unit) => {
            let array = Box::new(alloc, array)?;
            let index = Box::new(alloc, index.expr)?;
            let bound = bound_of(types, c);
            Ok(Operand::Place(Place::Element(array, bound, unit, index), element))
        }
        None => Err(refused(RefusalKind::IncompleteType, line)),
    }
}

#[tactic(auto, unfolding(ep_typing::specs::Parts::element_behind))]
fn element_behind(
    alloc: Global,
    types: &Types,
    line: u32,
    pointer: Value,
    index: Value,
) -> Result<Operand, Halt>
    ensures { Refines view.operand (at line
        (rule.element_behind types.now (view.value pointer) (view.value index))) result }
{
    let there = moved(alloc, types, line, pointer, index, false)?;
    pointed(alloc, line, there)
}

/// An element of an array in place, or behind a pointer.
#[tactic(auto, unfolding(ep_typing::specs::Parts::indexed))]
pub fn indexed(
    alloc: Global,
    types: &Types,
    line: u32,
    x: Operand,
    index: Value,
) -> Result<Operand, Halt>
    ensures { Refines view.operand (at line (rule.indexed types.now (view.operand x) (view.value index))) result }
{
    match x {
        Operand::Place(place, c) => {
            if is_integer(index.ty) {
                return element_of_array(alloc, types, line, place, c, index);
            }
            Err(refused(RefusalKind::TypeMismatch, line))
        }
        Operand::Value(pointer) => {
            if is_pointer(pointer.ty) & is_integer(index.ty) {
                return element_behind(alloc, types, line, pointer, index);
            }
            Err(refused(RefusalKind::TypeMismatch, line))
        }
        Operand::Function(_) => Err(refused(RefusalKind::TypeMismatch, line)),
    }
}
