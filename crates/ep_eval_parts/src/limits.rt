//! What operands have to be where a test has a truth.

ghost use Rattle.std.specs.Prelude.{◌≡◌, IfOk, IfSome, Some};
ghost use Rattle.std.specs.Option.{option_map};
ghost use Rattle.ep_cells.specs.States.{IsOfSort};
ghost use Rattle.ep_reads.specs.Bytes as bytes;
ghost use Rattle.ep_evaluation.specs.Narrowed as narrowed;
ghost use Rattle.ep_eval_loads.specs.After.{left_of};
ghost use Rattle.ep_eval_parts.specs.Limits as spec;

use ep_cells::{Cell, Value};
use ep_domain::Num;
use ep_eval_loads::After;
use ep_eval_loads::narrowing::{null_refined, refined};
use ep_eval_sides::sides::test_of;
use ep_int::{Cmp, Memory};
use ep_pointers::{PtrValue, Truths};
use ep_states::State;
use std::alloc::Global;

/// What an operand has to be.
#[derive(Drop)]
pub enum Limit<N> {
    Free,
    /// Among these numbers.
    Number(N),
    /// Null, or another pointer.
    Null(bool),
}

/// What two operands have to be.
#[derive(Drop)]
pub struct Limits<N> {
    pub first: Limit<N>,
    pub second: Limit<N>,
}

fn free<N>() -> Option<Limits<N>>
    ensures { result ≡ spec.free }
{
    Some(Limits {
        first: Limit::Free,
        second: Limit::Free,
    })
}

/// Whether an operand may be anything.
pub fn is_free<N: Num>(limit: &Limit<N>) -> bool
    ensures { result ≡ spec.is_free limit.now }
{
    match limit {
        Limit::Free => true,
        Limit::Number(_) => false,
        Limit::Null(_) => false,
    }
}

// ---- numbers

fn limits_within<N>(r: Option<(N, N)>) -> Option<Limits<N>>
    ensures { result ≡ spec.limits_within r }
{
    match r {
        None => None,
        Some((a, b)) => Some(Limits {
            first: Limit::Number(a),
            second: Limit::Number(b),
        }),
    }
}

fn limits_with<N: Num>(c: Cmp, a: &N, b: Option<N>) -> Option<Limits<N>>
    ensures { result ≡ spec.number_limits N.ops c (Some a.now) b }
{
    match b {
        None => free(),
        Some(b) => limits_within(N::filter(c, a, &b)),
    }
}

fn limits_of_numbers<N: Num>(c: Cmp, a: Option<N>, b: Option<N>) -> Option<Limits<N>>
    ensures { result ≡ spec.number_limits N.ops c a b }
{
    match a {
        None => free(),
        Some(a) => limits_with(c, &a, b),
    }
}

/// What two numbers have to be that compare so.
pub fn number_limits<N: Num>(sure: bool, c: Cmp, a: Option<N>, b: Option<N>) -> Option<Limits<N>>
    ensures { result ≡ spec.limits_if sure (spec.number_limits N.ops c a b) }
{
    if sure {
        return limits_of_numbers(c, a, b);
    }
    free()
}

// ---- pointers

fn has_targets<N: Num>(p: &PtrValue<N>) -> bool
    ensures { result ≡ bytes.has_targets p.now }
{
    p.targets().iter().any(|_t| true)
}

fn is_null_alone<N: Num>(p: &PtrValue<N>) -> bool
    ensures { result ≡ bytes.is_null_alone p.now }
{
    p.may_be_null() && !has_targets(p)
}

fn null_limit_of<N: Num>(other: &PtrValue<N>, null: bool) -> Limit<N>
    ensures { result ≡ spec.null_limit other.now (Some null) }
{
    if is_null_alone(other) {
        return Limit::Null(null);
    }
    Limit::Free
}

fn null_limit<N: Num>(other: &PtrValue<N>, alike: Option<bool>) -> Limit<N>
    ensures { result ≡ spec.null_limit other.now alike }
{
    match alike {
        None => Limit::Free,
        Some(null) => null_limit_of(other, null),
    }
}

// Whether a comparison of this truth says that both are one pointer, if it says so of either.
fn says_alike(c: Cmp, truth: bool) -> Option<bool>
    ensures { result ≡ narrowed.says_alike c truth }
{
    match c {
        Cmp::Eq => Some(truth),
        Cmp::Ne => Some(!truth),
        Cmp::Lt => None,
        Cmp::Le => None,
        Cmp::Gt => None,
        Cmp::Ge => None,
    }
}

fn answer(truths: Truths, truth: bool) -> bool
    ensures { result ≡ narrowed.answer truths truth }
{
    if truth { truths.yes } else { truths.no }
}

fn limits_of_both<N: Num>(
    c: Cmp,
    truth: bool,
    p: &PtrValue<N>,
    q: &PtrValue<N>,
) -> Option<Limits<N>>
    ensures { result ≡ spec.pointer_limits N.ops c truth (Some p.now) (Some q.now) }
{
    if answer(PtrValue::compare(c, p, q), truth) {
        return Some(Limits {
            first: null_limit(q, says_alike(c, truth)),
            second: null_limit(p, says_alike(c, truth)),
        });
    }
    None
}

fn pointer_limits_with<N: Num>(
    c: Cmp,
    truth: bool,
    p: &PtrValue<N>,
    q: Option<&PtrValue<N>>,
) -> Option<Limits<N>>
    ensures { result ≡ spec.pointer_limits N.ops c truth (Some p.now) (option_map (λ q. q.now) q.entry) }
{
    match q {
        None => free(),
        Some(q) => limits_of_both(c, truth, p, q),
    }
}

fn limits_of_pointers<N: Num>(
    c: Cmp,
    truth: bool,
    p: Option<&PtrValue<N>>,
    q: Option<&PtrValue<N>>,
) -> Option<Limits<N>>
    ensures { result
        ≡ spec.pointer_limits N.ops c truth (option_map (λ p. p.now) p.entry) (option_map (λ q. q.now) q.entry) }
{
    match p {
        None => free(),
        Some(p) => pointer_limits_with(c, truth, p, q),
    }
}

/// What two pointers have to be of whose comparison this is the truth.
pub fn pointer_limits<N: Num>(
    sure: bool,
    c: Cmp,
    truth: bool,
    p: Option<&PtrValue<N>>,
    q: Option<&PtrValue<N>>,
) -> Option<Limits<N>>
    ensures { result ≡ spec.limits_if sure
        (spec.pointer_limits N.ops c truth (option_map (λ p. p.now) p.entry) (option_map (λ q. q.now) q.entry)) }
{
    if sure {
        return limits_of_pointers(c, truth, p, q);
    }
    free()
}

// ---- values

fn limits_of_value<N: Num>(alloc: Global, truth: bool, v: &Value<N>) -> Option<Limits<N>>
    ensures { result ≡ spec.value_limits N.ops truth (Some v.now) }
{
    match v {
        Value::Num(n) => limits_with(test_of(truth), n, Some(N::single(0))),
        Value::Ptr(p) => limits_of_both(Cmp::Ne, truth, p, &PtrValue::null(alloc)),
    }
}

fn limits_of_some<N: Num>(alloc: Global, truth: bool, v: &Option<Value<N>>) -> Option<Limits<N>>
    ensures { result ≡ spec.value_limits N.ops truth v.now }
{
    match v {
        None => free(),
        Some(v) => limits_of_value(alloc, truth, v),
    }
}

/// What a value has to be that is of a truth; the second limit is of 0 or null.
pub fn value_limits<N: Num>(
    alloc: Global,
    sure: bool,
    truth: bool,
    v: &Option<Value<N>>,
) -> Option<Limits<N>>
    ensures { result ≡ spec.limits_if sure (spec.value_limits N.ops truth v.now) }
{
    if sure {
        return limits_of_some(alloc, truth, v);
    }
    free()
}

// ---- what they leave

/// What is left of a state where the operand whose cell this is has to be so.
pub fn limited<N: Num>(
    state: &State<N>,
    limit: &Limit<N>,
    c: &Option<Cell<N>>,
) -> Result<After<N>, Memory>
    requires { IfSome c.now (λ c. IsOfSort c.what c.value) }
    ensures { IfOk result (λ r. left_of state.now r ≡ spec.limited N.ops limit.now c.now state.now) }
{
    match limit {
        Limit::Free => Ok(After::Unchanged),
        Limit::Number(n) => refined(state, c, n),
        Limit::Null(null) => null_refined(state, c, *null),
    }
}
