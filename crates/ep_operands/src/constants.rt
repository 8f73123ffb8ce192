//! Constants: numbers, `sizeof`, casts to integers and operators on them.

ghost use Rattle.std.specs.Prelude.{◌≡◌, IfSome, Option};
ghost use Rattle.ep_int.specs.Arith as arithmetic;
ghost use Rattle.ep_int.specs.Types.{InRange};
ghost use Rattle.ep_int.specs.declared.types.IntType.{IntType as Kind};
ghost use Rattle.ep_core.specs.View.{expr_view};
ghost use Rattle.ep_typing.specs.Constant as rule;
ghost use Rattle.ep_operands.specs.Numbers.{IsNumber, IsSomeNumber};
ghost use Rattle.ep_operands.specs.View as view;

use crate::types::is_integer;
use crate::value::Value;
use ep_core::tree::Expr;
use ep_int::{Cmp, Undef, arith, wrap};

// No object and no pointer occurs, also in a part that isn't evaluated.
fn has_only_numbers(e: &Expr) -> bool
    ensures { result ≡ rule.has_only_numbers (expr_view e.now) }
{
    match e {
        Expr::Const(_, _) => true,
        Expr::Null => false,
        Expr::Load(_, _) => false,
        Expr::AddrOf(_) => false,
        Expr::Bin(_, _, a, b) => has_only_numbers(a) & has_only_numbers(b),
        Expr::Convert(_, a) => has_only_numbers(a),
        Expr::Compare(_, _, a, b) => has_only_numbers(a) & has_only_numbers(b),
        Expr::PtrCompare(_, _, _) => false,
        Expr::And(a, b) => has_only_numbers(a) & has_only_numbers(b),
        Expr::Or(a, b) => has_only_numbers(a) & has_only_numbers(b),
        Expr::Not(a) => has_only_numbers(a),
        Expr::Cond(test, a, b) => {
            has_only_numbers(test) & (has_only_numbers(a) & has_only_numbers(b))
        }
        Expr::PtrAdd(_, _, _, _) => false,
        Expr::Cast(_) => false,
    }
}

fn no_fault(outcome: Result<i128, Undef>) -> Option<i128>
    ensures { result ≡ rule.no_fault outcome }
{
    match outcome {
        Ok(v) => Some(v),
        Err(_) => None,
    }
}

fn truth(b: bool) -> i128
    ensures { result ≡ rule.truth b }
{
    if b { 1 } else { 0 }
}

fn equals(x: i128, y: i128) -> bool
    ensures { result ≡ arithmetic.int_eq x y }
{
    (x <= y) & (y <= x)
}

fn is_true(v: i128) -> bool
    ensures { result ≡ rule.is_true v }
{
    !equals(v, 0)
}

fn compares(how: Cmp, x: i128, y: i128) -> bool
    ensures { result ≡ arithmetic.compares how x y }
{
    match how {
        Cmp::Eq => equals(x, y),
        Cmp::Ne => !equals(x, y),
        Cmp::Lt => x < y,
        Cmp::Le => x <= y,
        Cmp::Gt => y < x,
        Cmp::Ge => y <= x,
    }
}

// The number of an expression of numbers, where nothing faults.
#[tactic(auto, unfolding(ep_typing::specs::Constant::number_of))]
fn number_of(e: &Expr) -> Option<i128>
    requires { IsSomeNumber (expr_view e.now) }
    ensures number { result ≡ rule.number_of (expr_view e.now) }
    ensures of_type { IfSome result (λ v. (t : Kind) → IsNumber (expr_view e.now) t → InRange t v) }
{
    match e {
        Expr::Const(_, v) => Some(*v),
        Expr::Null => None,
        Expr::Load(_, _) => None,
        Expr::AddrOf(_) => None,
        Expr::Bin(op, t, a, b) => {
            let x = number_of(a)?;
            let y = number_of(b)?;
            no_fault(arith(*op, *t, x, y))
        }
        Expr::Convert(t, a) => Some(wrap(*t, number_of(a)?)),
        Expr::Compare(how, _, a, b) => {
            let x = number_of(a)?;
            let y = number_of(b)?;
            Some(truth(compares(*how, x, y)))
        }
        Expr::PtrCompare(_, _, _) => None,
        Expr::And(a, b) => {
            if is_true(number_of(a)?) {
                return Some(truth(is_true(number_of(b)?)));
            }
            Some(0)
        }
        Expr::Or(a, b) => {
            if is_true(number_of(a)?) {
                return Some(1);
            }
            Some(truth(is_true(number_of(b)?)))
        }
        Expr::Not(a) => Some(truth(!is_true(number_of(a)?))),
        Expr::Cond(test, a, b) => {
            if is_true(number_of(test)?) {
                return number_of(a);
            }
            number_of(b)
        }
        Expr::PtrAdd(_, _, _, _) => None,
        Expr::Cast(_) => None,
    }
}

/// The number that a value is, if it is a constant of integer type.
pub fn constant_of(v: &Value) -> Option<i128>
    ensures { result ≡ rule.constant_of (view.value v.now) }
{
    if is_integer(v.ty) & has_only_numbers(&v.expr) {
        number_of(&v.expr)
    } else {
        None
    }
}

fn count_in(v: i128) -> Option<u32>
    ensures { result ≡ rule.count_in v }
{
    if (1 <= v) & (v <= 65_536) {
        Some(v as u32)
    } else {
        None
    }
}

/// The number that a value is, if it is a constant from 1 to 65,536.
#[tactic(auto, unfolding(ep_typing::specs::Constant::count_of))]
pub fn count_of(v: &Value) -> Option<u32>
    ensures { result ≡ rule.count_of (view.value v.now) }
{
    let number = constant_of(v)?;
    count_in(number)
}
