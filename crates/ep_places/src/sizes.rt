//! Casts and sizes.

ghost use Rattle.std.specs.Prelude.{◌≡◌};
ghost use Rattle.ep_typing.specs.Parts as rule;
ghost use Rattle.ep_typing.specs.Results.{at};
ghost use Rattle.ep_operands.specs.Refinement.{Refines};
ghost use Rattle.ep_operands.specs.View as view;

use ep_ast::{Halt, RefusalKind};
use ep_core::tree::Expr;
use ep_layout::Types;
use ep_operands::{
    Operand, Value, are_scalars, as_type, is_mixed, refused, size_of_type, size_type,
};
use ep_typing::CType;
use std::alloc::Global;

/// A cast.
#[tactic(auto, unfolding(ep_typing::specs::Parts::casted))]
pub fn casted(alloc: Global, line: u32, c: CType, v: Value) -> Result<Value, Halt>
    ensures { Refines view.value (at line (rule.casted c (view.value v))) result }
{
    if !are_scalars(c, v.ty) {
        return Err(refused(RefusalKind::TypeMismatch, line));
    }
    if is_mixed(c, &v) {
        return Err(refused(RefusalKind::PointerToInteger, line));
    }
    let expr = as_type(alloc, c, v)?;
    Ok(Value::plain(expr, c))
}

/// `sizeof` of a type.
#[tactic(auto, unfolding(ep_typing::specs::Parts::type_sized))]
pub fn type_sized(types: &Types, line: u32, c: CType) -> Result<Value, Halt>
    ensures { Refines view.value (at line (rule.type_sized types.now c)) result }
{
    match size_of_type(types, c) {
        Some(size) => {
            let t = size_type(types.model());
            Ok(Value::int(Expr::Const(t, i128::from(size)), t))
        }
        None => Err(refused(RefusalKind::IncompleteType, line)),
    }
}

/// `sizeof` of an operand.
#[tactic(auto, unfolding(ep_typing::specs::Parts::sized))]
pub fn sized(types: &Types, line: u32, x: Operand) -> Result<Value, Halt>
    ensures { Refines view.value (at line (rule.sized types.now (view.operand x))) result }
{
    match x {
        Operand::Place(_, c) => type_sized(types, line, c),
        Operand::Value(v) => type_sized(types, line, v.ty),
        Operand::Function(_) => Err(refused(RefusalKind::TypeMismatch, line)),
    }
}
