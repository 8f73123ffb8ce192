//! Numbers, pointers and truths of one side.

ghost use Rattle.std.specs.Prelude.{◌≡◌, Some, IfOk, is_some, pos};
ghost use Rattle.std.specs.Option.{option_map};
ghost use Rattle.ep_domain.specs.Domain.{Ops};
ghost use Rattle.ep_pointers.specs.Compare as compare;
ghost use Rattle.ep_evaluation.specs.Given as given;
ghost use Rattle.ep_evaluation.specs.Narrowed as narrowed;
ghost use Rattle.ep_evaluation.specs.Operators as spec;
ghost use Rattle.ep_evaluation.specs.Evaluation as evaluation;

use ep_cell_rows::values::copy_value;
use ep_cells::Value;
use ep_domain::{Num, Outcome};
use ep_equalities::SideValue;
use ep_int::{BinOp, Cmp, IntType, Memory};
use ep_pointers::{PtrValue, Truths};

/// What a side has that doesn't run.
pub fn nothing<N: Num>() -> SideValue<N>
    ensures { result ≡ given.nothing }
{
    SideValue {
        value: None,
        form: None,
    }
}

/// A value without a form.
pub fn formless<N: Num>(value: Option<Value<N>>) -> SideValue<N>
    ensures { result ≡ evaluation.formless N.ops value }
{
    SideValue { value, form: None }
}

/// A number, if there is one.
pub fn numeric<N: Num>(number: Option<N>) -> Option<Value<N>>
    ensures { result ≡ option_map (λ n. Value.Num n) number }
{
    match number {
        None => None,
        Some(n) => Some(Value::Num(n)),
    }
}

fn number_of<N: Num>(v: &Value<N>) -> Option<N>
    ensures { result ≡ spec.number_in (Some v.now) }
{
    match v {
        Value::Num(n) => Some(*n),
        Value::Ptr(_) => None,
    }
}

/// The number, if it is one.
pub fn number_in<N: Num>(v: &Option<Value<N>>) -> Option<N>
    ensures { result ≡ spec.number_in v.now }
{
    match v {
        None => None,
        Some(v) => number_of(v),
    }
}

/// The number of a side, if it is one.
pub fn number<N: Num>(x: &SideValue<N>) -> Option<N>
    ensures { result ≡ evaluation.number N.ops x.now }
{
    number_in(&x.value)
}

fn pointer_of<N: Num>(v: &Value<N>) -> Option<&PtrValue<N>>
    ensures { option_map (λ p. p.now) result ≡ spec.pointer_in (Some v.now) }
{
    match v {
        Value::Num(_) => None,
        Value::Ptr(p) => Some(p),
    }
}

/// The pointer, if it is one.
pub fn pointer_in<N: Num>(v: &Option<Value<N>>) -> Option<&PtrValue<N>>
    ensures { option_map (λ p. p.now) result ≡ spec.pointer_in v.now }
{
    match v {
        None => None,
        Some(v) => pointer_of(v),
    }
}

/// The pointer of a side, if it is one.
pub fn pointer<N: Num>(x: &SideValue<N>) -> Option<&PtrValue<N>>
    ensures { option_map (λ p. p.now) result ≡ evaluation.pointer N.ops x.now }
{
    pointer_in(&x.value)
}

// ---- truths

/// 1 and 0, as far as they are allowed.
pub fn truth_value<N: Num>(yes: bool, no: bool) -> Option<Value<N>>
    ensures { result ≡ spec.truth_value N.ops yes no }
{
    if yes {
        if no {
            return Some(Value::Num(N::single(0).join(&N::single(1))));
        }
        return Some(Value::Num(N::single(1)));
    }
    if no {
        return Some(Value::Num(N::single(0)));
    }
    None
}

/// The comparison that is true where the other is false.
pub fn opposite(c: Cmp) -> Cmp
    ensures { result ≡ compare.opposite c }
{
    match c {
        Cmp::Eq => Cmp::Ne,
        Cmp::Ne => Cmp::Eq,
        Cmp::Lt => Cmp::Ge,
        Cmp::Le => Cmp::Gt,
        Cmp::Gt => Cmp::Le,
        Cmp::Ge => Cmp::Lt,
    }
}

/// The comparison that holds where this one has a truth.
pub fn when_not(c: Cmp, truth: bool) -> Cmp
    ensures { result ≡ narrowed.when_not c truth }
{
    if truth { c } else { opposite(c) }
}

/// The comparison with 0 that holds of a number of a truth.
pub fn test_of(truth: bool) -> Cmp
    ensures { result ≡ spec.test_of truth }
{
    if truth { Cmp::Ne } else { Cmp::Eq }
}

fn may_compare<N: Num>(c: Cmp, a: &N, b: &N) -> bool
    ensures { result ≡ is_some (N.ops.filter c a.now b.now) }
{
    N::filter(c, a, b).is_some()
}

/// Whether a pointer may be other than null.
pub fn has_targets<N: Num>(p: &PtrValue<N>) -> bool
    ensures { result ≡ compare.has_targets p.now.targets }
{
    match p.targets() {
        [] => false,
        [_, ..] => true,
    }
}

fn pointer_may_be<N: Num>(p: &PtrValue<N>, truth: bool) -> bool
    ensures { result ≡ spec.may_be N.ops (Some (Value.Ptr p.now)) truth }
{
    if truth {
        has_targets(p)
    } else {
        p.may_be_null()
    }
}

fn value_may_be<N: Num>(v: &Value<N>, truth: bool) -> bool
    ensures { result ≡ spec.may_be N.ops (Some v.now) truth }
{
    match v {
        Value::Num(n) => may_compare(test_of(truth), n, &N::single(0)),
        Value::Ptr(p) => pointer_may_be(p, truth),
    }
}

/// Whether a value may be of a truth.
pub fn may_be<N: Num>(v: &Option<Value<N>>, truth: bool) -> bool
    ensures { result ≡ spec.may_be N.ops v.now truth }
{
    match v {
        None => false,
        Some(v) => value_may_be(v, truth),
    }
}

// ---- numbers

fn truths_of_numbers<N: Num>(c: Cmp, a: &N, b: &N) -> Option<Value<N>>
    ensures { result ≡ spec.compared N.ops c (Some a.now) (Some b.now) }
{
    truth_value(may_compare(c, a, b), may_compare(opposite(c), a, b))
}

fn compared_with<N: Num>(c: Cmp, a: &N, b: Option<N>) -> Option<Value<N>>
    ensures { result ≡ spec.compared N.ops c (Some a.now) b }
{
    match b {
        None => None,
        Some(b) => truths_of_numbers(c, a, &b),
    }
}

fn compared<N: Num>(c: Cmp, a: Option<N>, b: Option<N>) -> Option<Value<N>>
    ensures { result ≡ spec.compared N.ops c a b }
{
    match a {
        None => None,
        Some(a) => compared_with(c, &a, b),
    }
}

/// A comparison of numbers.
pub fn compare_side<N: Num>(c: Cmp, x: &SideValue<N>, y: &SideValue<N>) -> SideValue<N>
    ensures { result ≡ evaluation.compare_side N.ops c x.now y.now }
{
    formless(compared(c, number(x), number(y)))
}

fn no_outcome<N: Num>() -> Outcome<N>
    ensures { result ≡ spec.no_outcome }
{
    Outcome {
        value: None,
        fault: false,
        shown: (0, 0),
    }
}

fn outcome_with<N: Num>(op: BinOp, t: IntType, a: &N, b: Option<N>) -> Outcome<N>
    ensures { result ≡ spec.outcome_of N.ops op t (Some a.now) b }
{
    match b {
        None => no_outcome(),
        Some(b) => N::op(op, t, a, &b),
    }
}

fn outcome_of<N: Num>(op: BinOp, t: IntType, a: Option<N>, b: Option<N>) -> Outcome<N>
    ensures { result ≡ spec.outcome_of N.ops op t a b }
{
    match a {
        None => no_outcome(),
        Some(a) => outcome_with(op, t, &a, b),
    }
}

/// An operator on the numbers of a side.
pub fn outcome<N: Num>(op: BinOp, t: IntType, x: &SideValue<N>, y: &SideValue<N>) -> Outcome<N>
    ensures { result ≡ evaluation.outcome N.ops op t x.now y.now }
{
    outcome_of(op, t, number(x), number(y))
}

// ---- pointers

fn no_truths() -> Truths
    ensures { result ≡ spec.no_truths }
{
    Truths {
        yes: false,
        no: false,
        mixed: false,
    }
}

fn truths_with<N: Num>(c: Cmp, p: &PtrValue<N>, q: Option<&PtrValue<N>>) -> Truths
    ensures { result ≡ spec.truths_of N.ops c (Some p.now) (option_map (λ q. q.now) q.entry) }
{
    match q {
        None => no_truths(),
        Some(q) => PtrValue::compare(c, p, q),
    }
}

fn truths_of<N: Num>(c: Cmp, p: Option<&PtrValue<N>>, q: Option<&PtrValue<N>>) -> Truths
    ensures { result ≡ spec.truths_of N.ops c (option_map (λ p. p.now) p.entry) (option_map (λ q. q.now) q.entry) }
{
    match p {
        None => no_truths(),
        Some(p) => truths_with(c, p, q),
    }
}

/// What a comparison of the pointers of a side may answer.
pub fn truths<N: Num>(c: Cmp, x: &SideValue<N>, y: &SideValue<N>) -> Truths
    ensures { result ≡ evaluation.truths N.ops c x.now y.now }
{
    truths_of(c, pointer(x), pointer(y))
}

/// A comparison of pointers, by what it may answer.
pub fn pointers_side<N: Num>(truths: Truths) -> SideValue<N>
    ensures { result ≡ evaluation.formless N.ops (spec.truth_value N.ops truths.yes truths.no) }
{
    formless(truth_value(truths.yes, truths.no))
}

/// `!` of a side.
pub fn not_side<N: Num>(x: &SideValue<N>) -> SideValue<N>
    ensures { result ≡ evaluation.not_side N.ops x.now }
{
    formless(truth_value(may_be(&x.value, false), may_be(&x.value, true)))
}

/// The same value, without its form.
pub fn same_side<N: Num>(x: &SideValue<N>) -> Result<SideValue<N>, Memory>
    ensures { IfOk result (λ r. r ≡ evaluation.formless N.ops x.now.value) }
{
    let value = copy_value(&x.value)?;
    Ok(formless(value))
}

/// `&&` of a side where t is true, and `||` where it is false, where its second operand gives y.
pub fn short_side<N: Num>(t: bool, x: &SideValue<N>, y: &SideValue<N>) -> SideValue<N>
    ensures { result ≡ evaluation.short_side N.ops t x.now y.now }
{
    let first_true = !t && may_be(&x.value, true);
    let first_false = t && may_be(&x.value, false);
    let yes = may_be(&y.value, true) || first_true;
    let no = may_be(&y.value, false) || first_false;
    formless(truth_value(yes, no))
}
