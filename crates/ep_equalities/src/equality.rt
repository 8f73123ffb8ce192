//! When two values are surely equal.

ghost use Rattle.std.specs.Prelude.{◌≡◌, [], ◌∷◌, Some};
ghost use Rattle.ep_cells.specs.Reshare.{is_single};
ghost use Rattle.ep_reads.specs.Bytes.{has_targets, is_null_alone};
ghost use Rattle.ep_equalities.specs.Same as spec;
ghost use Rattle.ep_equalities.specs.Pairs.{AreEqualIf};

use crate::pair::PairValue;
use ep_cell_rows::values::{are_one_number, have_same_form};
use ep_cells::Value;
use ep_domain::Num;
use ep_pointers::PtrValue;

fn is_single(range: (i128, i128)) -> bool
    ensures { result ≡ is_single range }
{
    range.0 == range.1
}

fn are_one_offset<N: Num>(x: &N, y: &N) -> bool
    ensures { result ≡ spec.are_one_offset N.ops x.now y.now }
{
    is_single(x.range()) && is_single(y.range()) && x.range().0 == y.range().0
}

fn are_one_block<N: Num>(s: &(u32, N), t: &(u32, N)) -> bool
    ensures { result ≡ spec.are_one_target N.ops (s.now ∷ []) (t.now ∷ []) }
{
    s.0 == t.0 && are_one_offset(&s.1, &t.1)
}

fn are_one_target<N: Num>(x: &[(u32, N)], y: &[(u32, N)]) -> bool
    ensures { result ≡ spec.are_one_target N.ops x.now y.now }
{
    match x {
        [s] => match y {
            [t] => are_one_block(s, t),
            _ => false,
        },
        _ => false,
    }
}

fn has_targets<N: Num>(p: &PtrValue<N>) -> bool
    ensures { result ≡ has_targets p.now }
{
    p.targets().iter().any(|_t| true)
}

fn is_null_alone<N: Num>(p: &PtrValue<N>) -> bool
    ensures { result ≡ is_null_alone p.now }
{
    p.may_be_null() && !has_targets(p)
}

fn are_one_place<N: Num>(p: &PtrValue<N>, q: &PtrValue<N>) -> bool
    ensures { result ≡ spec.are_one_place N.ops p.now q.now }
{
    if is_null_alone(p) && is_null_alone(q) {
        return true;
    }
    !p.may_be_null() && !q.may_be_null() && are_one_target(p.targets(), q.targets())
}

fn is_one_pointer<N: Num>(p: &PtrValue<N>, v: &Value<N>) -> bool
    ensures { result ≡ spec.are_one_pointer N.ops (Some (Value.Ptr p.now)) (Some v.now) }
{
    match v {
        Value::Num(_) => false,
        Value::Ptr(q) => are_one_place(p, q),
    }
}

fn is_some_pointer<N: Num>(u: &Value<N>, v: &Value<N>) -> bool
    ensures { result ≡ spec.are_one_pointer N.ops (Some u.now) (Some v.now) }
{
    match u {
        Value::Num(_) => false,
        Value::Ptr(p) => is_one_pointer(p, v),
    }
}

fn is_pointer_of<N: Num>(u: &Value<N>, v: &Option<Value<N>>) -> bool
    ensures { result ≡ spec.are_one_pointer N.ops (Some u.now) v.now }
{
    match v {
        None => false,
        Some(v) => is_some_pointer(u, v),
    }
}

fn are_one_pointer<N: Num>(u: &Option<Value<N>>, v: &Option<Value<N>>) -> bool
    ensures { result ≡ spec.are_one_pointer N.ops u.now v.now }
{
    match u {
        None => false,
        Some(u) => is_pointer_of(u, v),
    }
}

fn is_same<N: Num>(p: &PairValue<N>) -> bool
    ensures { result ≡ spec.is_same N.ops p.now }
{
    p.equal
        || have_same_form(&p.left.form, &p.right.form)
        || are_one_number(&p.left.value, &p.right.value)
        || are_one_pointer(&p.left.value, &p.right.value)
}

/// Whether both machines surely have the same value. Where it answers no, they may still have.
pub fn same<N: Num>(p: &PairValue<N>) -> bool
    ensures value { result ≡ spec.is_same N.ops p.now }
    ensures equal { AreEqualIf result N.ops p.now }
{
    is_same(p)
}
