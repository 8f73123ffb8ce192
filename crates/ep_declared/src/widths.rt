//! The widths of bit-fields.

ghost use Rattle.std.specs.Prelude.{◌≡◌, ◌≤◌, IfOk, Ok};
ghost use Rattle.ep_ast.specs.Kind.{bit_field};
ghost use Rattle.ep_int.specs.Types.{bits_of};
ghost use Rattle.ep_typing.specs.Operand as operand;
ghost use Rattle.ep_typing.specs.Results.{at, needed};
ghost use Rattle.ep_elaboration.specs.Aggregates as rule;
ghost use Rattle.ep_operands.specs.Refinement.{Refines};
ghost use Rattle.ep_operands.specs.View as operands;
ghost use Rattle.ep_scopes.specs.View.{env as env_view};

use ep_ast::{Halt, RefusalKind};
use ep_int::{IntType, bits};
use ep_operands::{Operand, Value, constant_of, refused, value_of};
use ep_scopes::Env;

fn width_from(t: IntType, has_name: bool, v: i128) -> Option<u32>
    ensures { result ≡ rule.width_from t has_name v }
{
    if (0 <= v) & (v <= i128::from(bits(t))) & ((1 <= v) | !has_name) {
        Some(v as u32)
    } else {
        None
    }
}

fn width_in(t: IntType, has_name: bool, v: &Value) -> Option<u32>
    ensures { result ≡ rule.width_in t has_name (Ok (operands.value v.now)) }
{
    let number = constant_of(v)?;
    width_from(t, has_name, number)
}

/// The width that an operand is, for a bit-field of this type.
pub(crate) fn width_of(
    env: &Env,
    line: u32,
    t: IntType,
    has_name: bool,
    x: Operand,
) -> Result<u32, Halt>
    ensures means { Refines (λ n. n) (at line (needed bit_field
        (rule.width_in t has_name (operand.value_of (env_view env.now).types (operands.operand x))))) result }
    ensures fits { IfOk result (λ n. n ≤ bits_of t) }
{
    match value_of(env.alloc, &env.types, line, x) {
        Ok(v) => match width_in(t, has_name, &v) {
            Some(n) => Ok(n),
            None => Err(refused(RefusalKind::BitField, line)),
        },
        Err(Halt::Refused(_)) => Err(refused(RefusalKind::BitField, line)),
        Err(Halt::Memory) => Err(Halt::Memory),
    }
}
