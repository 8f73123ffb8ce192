//! Constants, which the first values of globals are.

ghost use Rattle.std.specs.Prelude.{◌≡◌, pos};
ghost use Rattle.std.specs.Option.{option_map, option_to_list};
ghost use Rattle.ep_core.specs.View.{init_view};
ghost use Rattle.ep_declared.specs.View as view;
ghost use Rattle.ep_elaboration.specs.Given as rule;
ghost use Rattle.ep_operands.specs.Refinement.{Refines};
ghost use Rattle.ep_operands.specs.View as operands;
ghost use Rattle.ep_typer_effects.specs.View as effects;
ghost use Rattle.ep_typing.specs.Results.{at};
ghost use Rattle.ep_typing.specs.Typing.{an_object};

use ep_ast::{Halt, RefusalKind};
use ep_core::program::InitByte;
use ep_declared::Object;
use ep_int::wrap;
use ep_layout::Types;
use ep_operands::{
    Operand, Value, constant_of, copy_operand, int_of, is_pointer, refused, value_of,
};
use ep_typer_effects::Right;
use std::alloc::Global;

fn constant_value(line: u32, x: &Object, v: &Value) -> Result<Option<InitByte>, Halt>
    ensures { Refines (λ o. option_to_list (option_map init_view o))
        (at line (rule.constant_value (view.object x.now) (operands.value v.now))) result }
{
    if is_pointer(x.ty) {
        if v.is_null {
            return Ok(None);
        }
        return Err(refused(RefusalKind::NotConstant, line));
    }
    match constant_of(v) {
        Some(n) => {
            let t = int_of(x.ty);
            Ok(Some(InitByte {
                block: x.block,
                offset: x.offset,
                t,
                value: wrap(t, n),
            }))
        }
        None => Err(refused(RefusalKind::NotConstant, line)),
    }
}

fn operand_constant(
    alloc: Global,
    types: &Types,
    line: u32,
    x: &Object,
    y: &Operand,
) -> Result<Option<InitByte>, Halt>
    ensures { Refines (λ o. option_to_list (option_map init_view o))
        (at line (rule.constant_given types.now (view.object x.now) (an_object (operands.operand y.now)))) result }
{
    let copy = copy_operand(alloc, y)?;
    let v = value_of(alloc, types, line, copy)?;
    constant_value(line, x, &v)
}

/// The number that an object begins with, which is asked of a global alone. A pointer that is null has none.
#[tactic(auto, unfolding(ep_elaboration::specs::Given::first_values))]
pub(crate) fn first_value(
    alloc: Global,
    types: &Types,
    global: bool,
    line: u32,
    x: &Object,
    right: &Right,
) -> Result<Option<InitByte>, Halt>
    ensures { Refines (λ o. option_to_list (option_map init_view o))
        (at line (rule.first_values global types.now (view.object x.now) (effects.right right.now))) result }
{
    if !global {
        return Ok(None);
    }
    match right {
        Right::Object(y) => operand_constant(alloc, types, line, x, y),
        Right::Result(_) => Err(refused(RefusalKind::NotConstant, line)),
    }
}
