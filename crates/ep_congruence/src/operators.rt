//! The value and the fault of an operator.

ghost use Rattle.std.specs.Prelude.{◌≡◌, ◌&&◌, false};
ghost use Rattle.std.specs.Option.{option_map, option_and_then};
ghost use Rattle.ep_int.specs.Types.{InRange};
ghost use Rattle.ep_int.specs.Arith.{IsRightOperand, arith_of, compares};
ghost use Rattle.ep_congruence_laws.specs.Classes.{is_one};
ghost use Rattle.ep_congruence_laws.specs.Results.{left_operand, right_operand, single_result, results_of};
ghost use Rattle.ep_congruence_laws.specs.Results.{results_between, value_of};
ghost use Rattle.ep_congruence_domain.specs.Congruence.{class_of, formed, fault_of, are_apart};

use crate::Congruence;
use crate::results::{difference, product_of, shifted_of, sum};
use ep_domain::range_fault;
use ep_domain::ranges::is_shift;
use ep_int::{BinOp, Cmp, IntType, arith, greatest, least};

// The left operands that arithmetic takes.
fn left_operand(t: IntType, x: &Congruence) -> Option<Congruence>
    ensures { option_map class_of result ≡ left_operand t (class_of x.now) }
{
    x.cut_of(least(t), greatest(t))
}

// The right operands that arithmetic takes.
fn right_operand(op: BinOp, t: IntType, y: &Congruence) -> Option<Congruence>
    ensures { option_map class_of result ≡ right_operand op t (class_of y.now) }
{
    if is_shift(op) {
        Some(*y)
    } else {
        left_operand(t, y)
    }
}

pub(crate) fn value(op: BinOp, t: IntType, x: &Congruence, y: &Congruence) -> Option<Congruence>
    ensures { result ≡ option_and_then formed (value_of op t (class_of x.now) (class_of y.now)) }
{
    let left = left_operand(t, x)?;
    let right = right_operand(op, t, y)?;
    results(op, t, &left, &right)
}

// The range that a fault shows.
pub(crate) fn fault(op: BinOp, t: IntType, x: &Congruence, y: &Congruence) -> Option<(i128, i128)>
    ensures { result ≡ fault_of op t x.now y.now }
{
    let left = left_operand(t, x)?;
    let right = right_operand(op, t, y)?;
    range_fault(op, t, left.range_of(), right.range_of())
}

// Single numbers by arithmetic, others by their classes.
fn results(op: BinOp, t: IntType, x: &Congruence, y: &Congruence) -> Option<Congruence>
    requires left { x.now.modulus ≡ 0 → InRange t x.now.remainder }
    requires right { y.now.modulus ≡ 0 → IsRightOperand op t y.now.remainder }
    ensures { result ≡ option_and_then formed (results_between op t (class_of x.now) (class_of y.now)) }
{
    if x.is_one() && y.is_one() {
        single_result(op, t, x.remainder(), y.remainder())
    } else {
        results_of(op, t, x, y)
    }
}

fn single_result(op: BinOp, t: IntType, x: i128, y: i128) -> Option<Congruence>
    requires left { InRange t x }
    requires right { IsRightOperand op t y }
    ensures { result ≡ option_and_then formed (single_result (arith_of op t x y)) }
{
    match arith(op, t, x, y) {
        Ok(v) => Congruence::formed(v, 0),
        Err(_) => None,
    }
}

// The results of classes that are not both one number.
fn results_of(op: BinOp, t: IntType, x: &Congruence, y: &Congruence) -> Option<Congruence>
    requires { (is_one (class_of x.now) && is_one (class_of y.now)) ≡ false }
    ensures { result ≡ formed (results_of op t (class_of x.now) (class_of y.now)) }
{
    match op {
        BinOp::Add => sum(t, x, y),
        BinOp::Sub => difference(t, x, y),
        BinOp::Mul => product_of(t, x, y),
        BinOp::Shl => shifted_of(t, x, y),
        BinOp::Div | BinOp::Rem | BinOp::And | BinOp::Or | BinOp::Xor | BinOp::Shr => {
            Congruence::formed(0, 1)
        }
    }
}

fn compares(c: Cmp, x: i128, y: i128) -> bool
    ensures { result ≡ compares c x y }
{
    match c {
        Cmp::Eq => x == y,
        Cmp::Ne => x != y,
        Cmp::Lt => x < y,
        Cmp::Le => x <= y,
        Cmp::Gt => y < x,
        Cmp::Ge => y <= x,
    }
}

// Whether both are one number and these don't compare so.
pub(crate) fn are_apart(c: Cmp, x: &Congruence, y: &Congruence) -> bool
    ensures { result ≡ are_apart c x.now y.now }
{
    x.is_one() && y.is_one() && !compares(c, x.remainder(), y.remainder())
}
