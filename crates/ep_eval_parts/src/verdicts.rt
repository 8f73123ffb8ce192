//! What a test tells of its truths.

ghost use Rattle.std.specs.Prelude.{◌≡◌, ◌||◌, Some, pos, not};
ghost use Rattle.std.specs.Ordering.{int_eq};
ghost use Rattle.ep_cells.specs.Reshare as reshare;
ghost use Rattle.ep_equalities.specs.Same.{is_same};
ghost use Rattle.ep_evaluation.specs.Given.{is_both};
ghost use Rattle.ep_evaluation.specs.Evaluation as spec;
ghost use Rattle.ep_evaluation.specs.Operators as operators;
ghost use Rattle.ep_reads.specs.Bytes as bytes;
ghost use Rattle.ep_eval_sides.specs.Sides.{faultless};
ghost use Rattle.ep_eval_parts.specs.Verdicts.{verdict_view};

use ep_cells::Value;
use ep_domain::Num;
use ep_equalities::{Mode, PairValue, SideValue, same};
use ep_pointers::PtrValue;

/// What a test tells of its truths on the running sides.
#[derive(Clone, Copy, Debug, PartialEq, Eq)]
pub enum Verdict {
    /// A running side has no value.
    Stuck,
    /// They surely have one truth.
    Same,
    /// They may have different ones.
    Differs,
}

fn is_none<N: Num>(x: &SideValue<N>) -> bool
    ensures { result ≡ spec.is_none N.ops x.now }
{
    x.value.is_none()
}

fn is_stuck<N: Num>(mode: Mode, x: &PairValue<N>) -> bool
    ensures { result ≡ spec.is_stuck N.ops mode x.now }
{
    match mode {
        Mode::Both => is_none(&x.left) || is_none(&x.right),
        Mode::Left => is_none(&x.left),
        Mode::Right => is_none(&x.right),
    }
}

fn is_both(mode: Mode) -> bool
    ensures { result ≡ is_both mode }
{
    match mode {
        Mode::Both => true,
        Mode::Left => false,
        Mode::Right => false,
    }
}

/// Whether the value is the same on all running sides.
pub fn has_one_truth<N: Num>(mode: Mode, x: &PairValue<N>) -> bool
    ensures { result ≡ (is_same N.ops x.now || not (is_both mode)) }
{
    same(x) || !is_both(mode)
}

/// What a test tells of its truths, by its value.
pub fn verdict_of<N: Num>(mode: Mode, x: &PairValue<N>) -> Verdict
    ensures { verdict_view result ≡ (spec.tested N.ops mode (faultless x.now)).verdict }
{
    if is_stuck(mode, x) {
        return Verdict::Stuck;
    }
    if has_one_truth(mode, x) {
        return Verdict::Same;
    }
    Verdict::Differs
}

// ---- values of one truth alone

fn is_single<N: Num>(n: &N) -> bool
    ensures { result ≡ reshare.is_single (N.ops.range n.now) }
{
    n.range().0 == n.range().1
}

fn is_zero<N: Num>(n: &N) -> bool
    ensures { result ≡ int_eq (N.ops.range n.now).0 (pos 0) }
{
    n.range().0 == 0
}

fn is_only_number<N: Num>(n: &N, truth: bool) -> bool
    ensures { result ≡ operators.is_only N.ops (Some (Value.Num n.now)) truth }
{
    if truth {
        return is_single(n) && !is_zero(n);
    }
    is_single(n) && is_zero(n)
}

fn is_one_place<N: Num>(targets: &[(u32, N)]) -> bool
    ensures { result ≡ operators.is_one_place N.ops targets.now }
{
    match targets {
        [] => false,
        [t] => is_single(&t.1),
        [_, _, ..] => false,
    }
}

fn has_targets<N: Num>(p: &PtrValue<N>) -> bool
    ensures { result ≡ bytes.has_targets p.now }
{
    p.targets().iter().any(|_t| true)
}

fn is_only_pointer<N: Num>(p: &PtrValue<N>, truth: bool) -> bool
    ensures { result ≡ operators.is_only N.ops (Some (Value.Ptr p.now)) truth }
{
    if truth {
        return !p.may_be_null() && is_one_place(p.targets());
    }
    p.may_be_null() && !has_targets(p)
}

fn is_only_value<N: Num>(v: &Value<N>, truth: bool) -> bool
    ensures { result ≡ operators.is_only N.ops (Some v.now) truth }
{
    match v {
        Value::Num(n) => is_only_number(n, truth),
        Value::Ptr(p) => is_only_pointer(p, truth),
    }
}

/// Whether a value is a single one, of this truth.
pub fn is_only<N: Num>(v: &Option<Value<N>>, truth: bool) -> bool
    ensures { result ≡ operators.is_only N.ops v.now truth }
{
    match v {
        None => false,
        Some(v) => is_only_value(v, truth),
    }
}
