//! Parts of objects.

ghost use Rattle.std.specs.Prelude.{◌≡◌, ◌+◌, ◌*◌, ◌^◌, ◌<◌, ◌≤◌, IfErr, IfOk, Some, pos, slice_get, unwrap_or};
ghost use Rattle.std.specs.Option.{option_map};
ghost use Rattle.ep_int.specs.declared.types.IntType.TheVariants.{I32};
ghost use Rattle.ep_layout.specs.Views.{member_view, members_view};
ghost use Rattle.ep_core.specs.Program as core;
ghost use Rattle.ep_core.specs.View.{place_view};
ghost use Rattle.ep_declared.specs.View as view;
ghost use Rattle.ep_elaboration.specs.Given as rule;
ghost use Rattle.ep_layout.specs.Table.{is_union, members_of};
ghost use Rattle.ep_typing.specs.Types.{bound_of, size_of_type};

use ep_core::tree::{Expr, Place};
use ep_declared::Object;
use ep_int::IntType;
use ep_layout::{Member, Types};
use ep_operands::{bound_of, copy_place, element_of, is_array, number_of, size_of_type, type_of};
use ep_typing::CType;
use std::alloc::{AllocError, Global};

// So many bytes further on.
fn behind(offset: u32, bytes: u32) -> Result<u32, AllocError>
    ensures means { IfOk result (λ n. n ≡ offset + bytes) }
    ensures full { IfErr result (λ _. 2 ^ 32 ≤ offset + bytes) }
{
    offset.checked_add(bytes).ok_or(AllocError)
}

// So many bytes further on, times a unit.
fn further(offset: u32, count: u32, unit: u32) -> Result<u32, AllocError>
    ensures means { IfOk result (λ n. n ≡ offset + count * unit) }
    ensures full { IfErr result (λ _. 2 ^ 32 ≤ offset + count * unit) }
{
    match count.checked_mul(unit) {
        None => Err(AllocError),
        Some(bytes) => behind(offset, bytes),
    }
}

fn size_or_none(types: &Types, c: CType) -> u32
    ensures { result ≡ unwrap_or (size_of_type types.now c) 0 }
{
    match size_of_type(types, c) {
        Some(n) => n,
        None => 0,
    }
}

fn element_place(
    alloc: Global,
    array: &Place,
    bound: u32,
    unit: u32,
    number: u32,
) -> Result<Place, AllocError>
    ensures { IfOk result (λ p. place_view p
        ≡ core.element (place_view array.now) bound unit (core.const I32 (pos number))) }
{
    let array = copy_place(alloc, array)?;
    let array = Box::new(alloc, array)?;
    let index = Box::new(alloc, Expr::Const(IntType::I32, i128::from(number)))?;
    Ok(Place::Element(array, bound, unit, index))
}

fn element_of_array(
    alloc: Global,
    types: &Types,
    array: &Object,
    number: u32,
) -> Result<Object, AllocError>
    requires { number < bound_of types.now array.now.ty }
    ensures { IfOk result (λ o. Some (view.object o) ≡ rule.element_at types.now (view.object array.now) number) }
{
    let ty = element_of(types, array.ty);
    let unit = size_or_none(types, ty);
    let bound = bound_of(types, array.ty);
    let offset = further(array.offset, number, unit)?;
    let place = element_place(alloc, &array.place, bound, unit, number)?;
    Ok(Object {
        place,
        block: array.block,
        offset,
        ty,
    })
}

// An element of an array, if it has one of this number.
fn element_at(
    alloc: Global,
    types: &Types,
    array: &Object,
    number: usize,
) -> Result<Option<Object>, AllocError>
    ensures { IfOk result (λ o. option_map view.object o ≡ rule.element_at types.now (view.object array.now) number) }
{
    if number < bound_of(types, array.ty) as usize {
        let element = element_of_array(alloc, types, array, number as u32)?;
        return Ok(Some(element));
    }
    Ok(None)
}

fn members_of<'a>(types: &'a Types, aggregate: u32) -> &'a [Member]
    ensures { members_view result.now ≡ members_of types.now aggregate }
{
    if aggregate < types.aggregate_count() {
        types.members(aggregate)
    } else {
        &[]
    }
}

fn is_union(types: &Types, aggregate: u32) -> bool
    ensures { result ≡ is_union types.now aggregate }
{
    if aggregate < types.aggregate_count() {
        types.is_union(aggregate)
    } else {
        false
    }
}

fn member_at(members: &[Member], number: usize) -> Option<&Member>
    ensures { option_map (λ m. member_view m.now) result ≡ slice_get (members_view members.now) number }
{
    match members.get(number) {
        Some(member) => Some(member),
        None => None,
    }
}

fn first_member(members: &[Member], number: usize) -> Option<&Member>
    ensures { option_map (λ m. member_view m.now) result
        ≡ slice_get (rule.first_member (members_view members.now)) number }
{
    if 0 < number {
        return None;
    }
    member_at(members, 0)
}

// The member that a list's value of this number is for.
fn given_member(types: &Types, aggregate: u32, number: usize) -> Option<&Member>
    ensures { option_map (λ m. member_view m.now) result ≡ slice_get (rule.given_members types.now aggregate) number }
{
    let members = members_of(types, aggregate);
    if is_union(types, aggregate) {
        return first_member(members, number);
    }
    member_at(members, number)
}

fn member_object(
    alloc: Global,
    types: &Types,
    whole: &Object,
    member: &Member,
) -> Result<Object, AllocError>
    ensures { IfOk result (λ o. view.object o
        ≡ rule.member_object types.now (view.object whole.now) (member_view member.now)) }
{
    let offset = behind(whole.offset, member.offset)?;
    let place = copy_place(alloc, &whole.place)?;
    let place = Box::new(alloc, place)?;
    Ok(Object {
        place: Place::Member(place, member.offset),
        block: whole.block,
        offset,
        ty: type_of(types, member.ty),
    })
}

/// The part that a list's value of this number is for, if there is one.
pub(crate) fn part_at(
    alloc: Global,
    types: &Types,
    whole: &Object,
    number: usize,
) -> Result<Option<Object>, AllocError>
    ensures { IfOk result (λ o. option_map view.object o ≡ rule.part_at types.now (view.object whole.now) number) }
{
    if is_array(whole.ty) {
        return element_at(alloc, types, whole, number);
    }
    match given_member(types, number_of(whole.ty), number) {
        None => Ok(None),
        Some(member) => {
            let part = member_object(alloc, types, whole, member)?;
            Ok(Some(part))
        }
    }
}

/// The same object again.
pub(crate) fn copy_object(alloc: Global, x: &Object) -> Result<Object, AllocError>
    ensures { IfOk result (λ o. view.object o ≡ view.object x.now) }
{
    let place = copy_place(alloc, &x.place)?;
    Ok(Object {
        place,
        block: x.block,
        offset: x.offset,
        ty: x.ty,
    })
}
