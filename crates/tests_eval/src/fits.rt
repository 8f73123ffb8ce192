//! Whether constants are in range, units are some bytes, and operands have their operators' types.

ghost use Rattle.std.specs.Prelude.{◌≡◌, true, Some};
ghost use Rattle.ep_core.specs.View.{expr_view, place_view};
ghost use Rattle.ep_core.specs.WellFormed.{right_type};
ghost use Rattle.ep_eval_fits.specs.Fitting.{ExprIsFit, PlaceIsFit};

use ep_core::tree::{Expr, Place};
use ep_eval_parts::own_types::int_type_of;
use ep_int::{BinOp, IntType, greatest, least};

fn is_type(own: Option<IntType>, t: IntType) -> bool
    ensures { result ≡ true → own ≡ Some t }
{
    match own {
        None => false,
        Some(u) => u == t,
    }
}

fn is_shift(op: BinOp) -> bool
    ensures { result ≡ true → (t : _) → (own : _) → right_type op t own ≡ own }
{
    match op {
        BinOp::Shl => true,
        BinOp::Shr => true,
        _ => false,
    }
}

fn is_right(op: BinOp, t: IntType, own: Option<IntType>) -> bool
    ensures { result ≡ true → right_type op t own ≡ own }
{
    if is_shift(op) {
        return true;
    }
    is_type(own, t)
}

#[cycle(fits)]
pub(crate) fn expr_fits(e: &Expr) -> bool
    ensures { result ≡ true → ExprIsFit (expr_view e.now) }
{
    match e {
        Expr::Const(t, v) => least(*t) <= *v && *v <= greatest(*t),
        Expr::Null => true,
        Expr::Load(_, a) => place_fits(a),
        Expr::AddrOf(a) => place_fits(a),
        Expr::Bin(op, t, a, b) => {
            expr_fits(a)
                && expr_fits(b)
                && is_type(int_type_of(a), *t)
                && is_right(*op, *t, int_type_of(b))
        }
        Expr::Convert(_, a) => expr_fits(a),
        Expr::Compare(_, _, a, b) => expr_fits(a) && expr_fits(b),
        Expr::PtrCompare(_, a, b) => expr_fits(a) && expr_fits(b),
        Expr::And(a, b) => expr_fits(a) && expr_fits(b),
        Expr::Or(a, b) => expr_fits(a) && expr_fits(b),
        Expr::Not(a) => expr_fits(a),
        Expr::Cond(c, a, b) => expr_fits(c) && expr_fits(a) && expr_fits(b),
        Expr::PtrAdd(unit, _, a, n) => expr_fits(a) && expr_fits(n) && *unit >= 1,
        Expr::Cast(a) => expr_fits(a),
    }
}

#[cycle(fits)]
fn place_fits(a: &Place) -> bool
    ensures { result ≡ true → PlaceIsFit (place_view a.now) }
{
    match a {
        Place::Block(_) => true,
        Place::Deref(e) => expr_fits(e),
        Place::Member(of, _) => place_fits(of),
        Place::Element(of, _, unit, i) => place_fits(of) && expr_fits(i) && *unit >= 1,
    }
}
