//! Expressions and places.

ghost use Rattle.std.specs.Prelude.{◌≡◌, ℕ, ℤ, IfOk, false, true};
ghost use Rattle.ep_int.specs.Memory.{Found, has, int, with_place};
ghost use Rattle.ep_bytes.specs.StoreView.{memory_in};
ghost use Rattle.ep_bytes.specs.View.{value_in};
ghost use Rattle.ep_core.specs.Exec.{element_at, is_true as truth_of, truth, where_true, with, with_number};
ghost use Rattle.ep_core.specs.View.{expr_view, place_view};
ghost use Rattle.ep_machine.specs.Faults.{IsWithinReach, found_by, with_number_by, with_place_by};
ghost use Rattle.ep_machine.specs.Settings.{
  ExprFits,
  IsLaid,
  PlaceFits,
  address_on,
  moved_on,
  value_on,
};

use crate::fault::Fault;
use crate::operators::{
    compares, computed, distance, element, is_true, moved, pointers_compare, truth,
};
use crate::reads::load;
use crate::setting::Setting;
use ep_bytes::{Datum, Store};
use ep_core::tree::{Expr, Place};
use ep_int::wrap;

/// The value of an expression.
#[cycle(evaluate)]
pub fn value(on: &Setting, store: &Store, e: &Expr) -> Result<Datum, Fault>
    requires laid { IsLaid on.now store.now }
    requires typed { ExprFits on.now (memory_in store.now) (expr_view e.now) }
    ensures { found_by result ≡ value_on on.now (expr_view e.now) (memory_in store.now) }
{
    match e {
        Expr::Const(_, v) => Ok(Datum::Int(*v)),
        Expr::Null => Ok(Datum::Null),
        Expr::Load(what, a) => {
            let (block, here) = target(on, store, a)?;
            load(on, store, *what, block, here)
        }
        Expr::AddrOf(a) => address(on, store, a),
        Expr::Bin(op, t, a, b) => {
            let left = number(on, store, a)?;
            let right = number(on, store, b)?;
            computed(*op, *t, left, right)
        }
        Expr::Convert(t, a) => Ok(Datum::Int(wrap(*t, number(on, store, a)?))),
        Expr::Compare(c, _, a, b) => {
            let x = number(on, store, a)?;
            let y = number(on, store, b)?;
            Ok(truth(compares(*c, x, y)))
        }
        Expr::PtrCompare(c, a, b) => {
            let v = value(on, store, a)?;
            let w = value(on, store, b)?;
            pointers_compare(*c, v, w)
        }
        Expr::And(a, b) => conjunction(on, store, value(on, store, a)?, b),
        Expr::Or(a, b) => disjunction(on, store, value(on, store, a)?, b),
        Expr::Not(a) => Ok(truth(!is_true(value(on, store, a)?))),
        Expr::Cond(t, a, b) => {
            if is_true(value(on, store, t)?) {
                return value(on, store, a);
            }
            value(on, store, b)
        }
        Expr::PtrAdd(unit, backwards, a, n) => {
            let v = value(on, store, a)?;
            let k = number(on, store, n)?;
            moved_from(on, v, distance(*unit, k, *backwards))
        }
        Expr::Cast(a) => value(on, store, a),
    }
}

/// The address of a place.
#[cycle(evaluate)]
pub fn address(on: &Setting, store: &Store, a: &Place) -> Result<Datum, Fault>
    requires laid { IsLaid on.now store.now }
    requires typed { PlaceFits on.now (memory_in store.now) (place_view a.now) }
    ensures { found_by result ≡ address_on on.now (place_view a.now) (memory_in store.now) }
{
    match a {
        Place::Block(b) => Ok(Datum::Pointer(*b, 0)),
        Place::Deref(e) => value(on, store, e),
        Place::Member(of, offset) => {
            let v = address(on, store, of)?;
            moved_from(on, v, i128::from(*offset))
        }
        Place::Element(of, bound, unit, i) => {
            let v = address(on, store, of)?;
            let k = number(on, store, i)?;
            element_of(v, *bound, *unit, k)
        }
    }
}

// The value of an expression that is a number.
#[cycle(evaluate)]
fn number(on: &Setting, store: &Store, e: &Expr) -> Result<i128, Fault>
    requires laid { IsLaid on.now store.now }
    requires typed { ExprFits on.now (memory_in store.now) (expr_view e.now) }
    ensures with { (go : ℤ → Found) → with_number (value_on on.now (expr_view e.now) (memory_in store.now)) go
        ≡ with_number_by result go }
    ensures is { IfOk result (λ v. value_on on.now (expr_view e.now) (memory_in store.now) ≡ has (int v)) }
{
    match value(on, store, e) {
        Ok(Datum::Int(v)) => Ok(v),
        Ok(Datum::Null) => Err(Fault::PointerPart),
        Ok(Datum::Pointer(_, _)) => Err(Fault::PointerPart),
        Err(k) => Err(k),
    }
}

// What `&&` gives after its first operand.
#[cycle(evaluate)]
fn conjunction(on: &Setting, store: &Store, first: Datum, second: &Expr) -> Result<Datum, Fault>
    requires laid { IsLaid on.now store.now }
    requires typed { ExprFits on.now (memory_in store.now) (expr_view second.now) }
    ensures { found_by result ≡ where_true (truth_of (value_in first)) (truth false)
        (with (value_on on.now (expr_view second.now) (memory_in store.now)) (λ v. truth (truth_of v))) }
{
    if !is_true(first) {
        return Ok(truth(false));
    }
    let v = value(on, store, second)?;
    Ok(truth(is_true(v)))
}

// What `||` gives after its first operand.
#[cycle(evaluate)]
fn disjunction(on: &Setting, store: &Store, first: Datum, second: &Expr) -> Result<Datum, Fault>
    requires laid { IsLaid on.now store.now }
    requires typed { ExprFits on.now (memory_in store.now) (expr_view second.now) }
    ensures { found_by result ≡ where_true (truth_of (value_in first))
        (with (value_on on.now (expr_view second.now) (memory_in store.now)) (λ v. truth (truth_of v))) (truth true) }
{
    if is_true(first) {
        return Ok(truth(true));
    }
    let v = value(on, store, second)?;
    Ok(truth(is_true(v)))
}

// Where a place is.
#[cycle(evaluate)]
fn target(on: &Setting, store: &Store, a: &Place) -> Result<(u32, u32), Fault>
    requires laid { IsLaid on.now store.now }
    requires typed { PlaceFits on.now (memory_in store.now) (place_view a.now) }
    ensures { (go : ℕ → ℕ → Found) → with_place (address_on on.now (place_view a.now) (memory_in store.now)) go
        ≡ with_place_by result go }
{
    match address(on, store, a) {
        Ok(Datum::Int(_)) => Err(Fault::NullPointer),
        Ok(Datum::Null) => Err(Fault::NullPointer),
        Ok(Datum::Pointer(b, q)) => Ok((b, q)),
        Err(k) => Err(k),
    }
}

// An address so many bytes further on or back.
fn moved_from(on: &Setting, v: Datum, by: i128) -> Result<Datum, Fault>
    requires { IsWithinReach by }
    ensures { found_by result ≡ moved_on on.now (value_in v) by }
{
    match v {
        Datum::Int(_) => Err(Fault::NullPointer),
        Datum::Null => Err(Fault::NullPointer),
        Datum::Pointer(b, q) => moved(on, b, q, by),
    }
}

// An element of the array at an address.
fn element_of(v: Datum, bound: u32, unit: u32, index: i128) -> Result<Datum, Fault>
    ensures { found_by result ≡ with_place (has (value_in v)) (λ b q. element_at b q bound unit index) }
{
    match v {
        Datum::Int(_) => Err(Fault::NullPointer),
        Datum::Null => Err(Fault::NullPointer),
        Datum::Pointer(b, q) => element(b, q, bound, unit, index),
    }
}
