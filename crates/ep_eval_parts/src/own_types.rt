//! The integer type that an expression has, if it has one.

ghost use Rattle.std.specs.Prelude.{◌≡◌};
ghost use Rattle.ep_core.specs.Program as plain;
ghost use Rattle.ep_core.specs.View.{expr_view};
ghost use Rattle.ep_core.specs.WellFormed as well_formed;

use ep_core::tree::Expr;
use ep_int::{IntType, Scalar};

fn type_of_scalar(what: Scalar) -> Option<IntType>
    ensures { (a : plain.Place) → result ≡ well_formed.int_type_of (plain.load what a) }
{
    match what {
        Scalar::Int(t) => Some(t),
        Scalar::Pointer => None,
    }
}

/// The integer type that the expression has, if it has one.
#[cycle(own_types)]
pub fn int_type_of(e: &Expr) -> Option<IntType>
    ensures { result ≡ well_formed.int_type_of (expr_view e.now) }
{
    match e {
        Expr::Const(t, _) => Some(*t),
        Expr::Null => None,
        Expr::Load(what, _) => type_of_scalar(*what),
        Expr::AddrOf(_) => None,
        Expr::Bin(_, t, _, _) => Some(*t),
        Expr::Convert(t, _) => Some(*t),
        Expr::Compare(_, _, _, _) => Some(IntType::I32),
        Expr::PtrCompare(_, _, _) => Some(IntType::I32),
        Expr::And(_, _) => Some(IntType::I32),
        Expr::Or(_, _) => Some(IntType::I32),
        Expr::Not(_) => Some(IntType::I32),
        Expr::Cond(_, a, _) => int_type_of(a),
        Expr::PtrAdd(_, _, _, _) => None,
        Expr::Cast(_) => None,
    }
}
