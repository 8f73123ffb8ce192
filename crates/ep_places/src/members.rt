//! Members.

ghost use Rattle.std.specs.Prelude.{◌≡◌, Option};
ghost use Rattle.std.specs.Option.{option_map};
ghost use Rattle.ep_core.specs.View.{place_view};
ghost use Rattle.ep_layout.specs.Table.{member_named};
ghost use Rattle.ep_layout.specs.Views.{member_view};
ghost use Rattle.ep_typing.specs.Parts as rule;
ghost use Rattle.ep_typing.specs.Results.{at};
ghost use Rattle.ep_operands.specs.Refinement.{Refines};
ghost use Rattle.ep_operands.specs.View as view;

use ep_ast::{Halt, RefusalKind};
use ep_core::tree::Place;
use ep_layout::{Member, Types};
use ep_operands::{Operand, is_aggregate, number_of, refused, type_of};
use ep_typing::CType;
use std::alloc::Global;

fn member_named<'a>(types: &'a Types, aggregate: u32, name: &[u8]) -> Option<&'a Member>
    ensures { option_map (λ m. member_view m.now) result ≡ member_named types.now aggregate name.now }
{
    if aggregate < types.aggregate_count() {
        types.member(aggregate, name)
    } else {
        None
    }
}

#[tactic(auto, unfolding(ep_typing::specs::Parts::member_of))]
fn member_of(
    alloc: Global,
    types: &Types,
    line: u32,
    whole: Place,
    c: CType,
    name: &[u8],
) -> Result<Operand, Halt>
    ensures { Refines view.operand (at line (rule.member_of types.now (place_view whole) c name.now)) result }
{
    match member_named(types, number_of(c), name) {
        Some(member) => {
            let whole = Box::new(alloc, whole)?;
            let ty = type_of(types, member.ty);
            Ok(Operand::Place(Place::Member(whole, member.offset), ty))
        }
        None => Err(refused(RefusalKind::NoMember, line)),
    }
}

/// `.`.
#[tactic(auto, unfolding(ep_typing::specs::Parts::selected))]
pub fn selected(
    alloc: Global,
    types: &Types,
    line: u32,
    x: Operand,
    name: &[u8],
) -> Result<Operand, Halt>
    ensures { Refines view.operand (at line (rule.selected types.now (view.operand x) name.now)) result }
{
    match x {
        Operand::Place(place, c) => {
            if is_aggregate(c) {
                return member_of(alloc, types, line, place, c, name);
            }
            Err(refused(RefusalKind::TypeMismatch, line))
        }
        Operand::Value(_) => Err(refused(RefusalKind::TypeMismatch, line)),
        Operand::Function(_) => Err(refused(RefusalKind::TypeMismatch, line)),
    }
}
