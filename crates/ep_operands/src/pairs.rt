//! What two values are together.

ghost use Rattle.std.specs.Prelude.{◌≡◌, ◌&&◌};
ghost use Rattle.ep_typing.specs.Types.{is_scalar};
ghost use Rattle.ep_typing.specs.Operators as rule;
ghost use Rattle.ep_operands.specs.View as view;

use crate::conversions::{are_compatible, is_mixed};
use crate::types::{int_of, is_integer, is_pointer, is_scalar};
use crate::value::Value;
use ep_int::{IntType, common};

/// Whether both operands are integers.
pub fn are_integers(a: &Value, b: &Value) -> bool
    ensures { result ≡ rule.are_integers (view.value a.now) (view.value b.now) }
{
    is_integer(a.ty) & is_integer(b.ty)
}

/// Whether both operands are scalars.
pub fn are_scalars(a: &Value, b: &Value) -> bool
    ensures { result ≡ is_scalar (view.value a.now).ty && is_scalar (view.value b.now).ty }
{
    is_scalar(a.ty) & is_scalar(b.ty)
}

/// Whether one of them is a null pointer constant (C11 6.3.2.3p3).
pub fn is_null_either(a: &Value, b: &Value) -> bool
    ensures { result ≡ rule.is_null_either (view.value a.now) (view.value b.now) }
{
    a.is_null | b.is_null
}

// The type of the usual arithmetic conversions.
/// The type of the usual arithmetic conversions (C11 6.3.1.8).
pub fn common_type(a: &Value, b: &Value) -> IntType
    ensures { result ≡ rule.common_type (view.value a.now) (view.value b.now) }
{
    common(int_of(a.ty), int_of(b.ty))
}

/// Whether one is a pointer and the other a number that isn't null.
pub fn are_mixed(a: &Value, b: &Value) -> bool
    ensures { result ≡ rule.are_mixed (view.value a.now) (view.value b.now) }
{
    if is_pointer(a.ty) {
        return is_mixed(a.ty, b);
    }
    if is_pointer(b.ty) {
        return is_mixed(b.ty, a);
    }
    false
}

/// Whether both are pointers, to types that don't go together.
pub fn are_foreign(a: &Value, b: &Value) -> bool
    ensures { result ≡ rule.are_foreign (view.value a.now) (view.value b.now) }
{
    !is_null_either(a, b) & !are_compatible(a.ty, b.ty)
}
