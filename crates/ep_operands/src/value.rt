//! Values of expressions.

ghost use Rattle.ep_core.specs.View.{expr_view};
ghost use Rattle.std.specs.Prelude.{IsTrue};
ghost use Rattle.ep_operands.specs.Numbers.{is_sound};

use crate::types::int_type;
use ep_core::tree::Expr;
use ep_int::IntType;
use ep_typing::CType;

/// A value with its type, and whether it is a null constant.
#[derive(Debug, Drop)]
pub struct Value {
    pub expr: Expr,
    pub ty: CType,
    pub is_null: bool,
    ghost sound: { IsTrue (is_sound (record { expr = expr_view expr; ty = ty; is_null = is_null })) },
}

impl Value {
    ghost use Rattle.std.specs.Prelude.{◌≡◌};
    ghost use Rattle.ep_int.specs.declared.types.IntType.{IntType as Kind};
    ghost use Rattle.ep_typing.specs.Operand as rule;
    ghost use Rattle.ep_operands.specs.Numbers.{IsNumber, IsSound};
    ghost use Rattle.ep_operands.specs.View as view;

    /// A number of a type.
    pub fn int(expr: Expr, t: IntType) -> Value
        requires { IsNumber (expr_view expr) t }
        ensures { view.value result ≡ rule.int_value (expr_view expr) t }
    {
        Value {
            expr,
            ty: int_type(t),
            is_null: false,
        }
    }

    /// An address, or what is read from an object.
    pub fn unknown(expr: Expr, ty: CType) -> Value
        requires { (t : Kind) → IsNumber (expr_view expr) t }
        ensures { view.value result ≡ rule.plain_value (expr_view expr) ty }
    {
        Value {
            expr,
            ty,
            is_null: false,
        }
    }

    /// Any value that is no null constant.
    pub fn plain(expr: Expr, ty: CType) -> Value
        requires { IsSound (rule.plain_value (expr_view expr) ty) }
        ensures { view.value result ≡ rule.plain_value (expr_view expr) ty }
    {
        Value {
            expr,
            ty,
            is_null: false,
        }
    }
}
