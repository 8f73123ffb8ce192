//! What expressions without a place give, of what their operands give.

ghost use Rattle.std.specs.Prelude.{◌≡◌, ◌++◌, ◌&&◌, [], IfOk, OnOk, None, Some, pos};
ghost use Rattle.std.specs.Option.{option_map};
ghost use Rattle.ep_int.specs.Types.{InRange};
ghost use Rattle.ep_pointers.specs.Value.{null_alone, one_target};
ghost use Rattle.ep_core.specs.Runs.{Side, left, right};
ghost use Rattle.ep_equalities.specs.Same.{is_same};
ghost use Rattle.ep_evaluation.specs.Operators as operators;
ghost use Rattle.ep_evaluation.specs.Evaluation as spec;
ghost use Rattle.ep_eval_sides.specs.Forms.{IsWide, IsWideIf};
ghost use Rattle.ep_eval_sides.specs.Sides.{faultless, faultless_if};

use crate::forms::{constant_form, convert_form, form_if, form_of_numbers};
use crate::pairs::{are_same, note, pair_on, shown_if, shows_if};
use crate::sides::{
    compare_side, formless, not_side, nothing, number, numeric, outcome, pointers_side, same_side,
    short_side, truths,
};
use ep_alarms::AlarmKind;
use ep_cell_rows::values::Union;
use ep_cells::Value;
use ep_domain::Num;
use ep_equalities::{Fault, Mode, PairValue, SideValue, same};
use ep_int::{BinOp, Cmp, IntType, Memory};
use ep_pointers::PtrValue;
use std::alloc::Global;

// ---- constants

fn constant_side<N: Num>(t: IntType, v: i128) -> SideValue<N>
    requires { InRange t v }
    ensures { result ≡ record { value = Some (Value.Num (N.ops.single v)); form = operators.constant_form t v } }
{
    SideValue {
        value: Some(Value::Num(N::single(v))),
        form: constant_form(t, v),
    }
}

/// A constant of the type.
pub fn constant<N: Num>(mode: Mode, t: IntType, v: i128) -> PairValue<N>
    requires { InRange t v }
    ensures { result ≡ (spec.constant_given N.ops t v mode).pair }
{
    pair_on(mode, constant_side(t, v), constant_side(t, v), true)
}

fn pointer_side<N: Num>(p: PtrValue<N>) -> SideValue<N>
    ensures { result ≡ spec.formless N.ops (Some (Value.Ptr p)) }
{
    formless(Some(Value::Ptr(p)))
}

/// The null pointer.
pub fn null<N: Num>(alloc: Global, mode: Mode) -> PairValue<N>
    ensures { result ≡ (spec.pointer_given N.ops null_alone mode).pair }
{
    let left = pointer_side(PtrValue::null(alloc));
    let right = pointer_side(PtrValue::null(alloc));
    pair_on(mode, left, right, true)
}

fn block_side<N: Num>(alloc: Global, block: u32) -> Result<SideValue<N>, Memory>
    ensures { IfOk result (λ r. r ≡ spec.formless N.ops (Some (Value.Ptr (one_target block (N.ops.single (pos 0)))))) }
{
    let p = PtrValue::to(alloc, block, N::single(0))?;
    Ok(pointer_side(p))
}

/// The address of a block.
pub fn block<N: Num>(alloc: Global, mode: Mode, block: u32) -> Result<PairValue<N>, Memory>
    ensures { IfOk result (λ r. r
        ≡ (spec.pointer_given N.ops (one_target block (N.ops.single (pos 0))) mode).pair) }
{
    let left = block_side(alloc, block)?;
    let right = block_side(alloc, block)?;
    Ok(pair_on(mode, left, right, true))
}

// ---- arithmetic

/// The kind of what may go wrong in an operator.
pub fn kind_of(op: BinOp) -> AlarmKind
    ensures { result ≡ operators.kind_of op }
{
    match op {
        BinOp::Add => AlarmKind::U1,
        BinOp::Sub => AlarmKind::U1,
        BinOp::Mul => AlarmKind::U1,
        BinOp::Div => AlarmKind::U2,
        BinOp::Rem => AlarmKind::U2,
        BinOp::And => AlarmKind::U1,
        BinOp::Or => AlarmKind::U1,
        BinOp::Xor => AlarmKind::U1,
        BinOp::Shl => AlarmKind::U3,
        BinOp::Shr => AlarmKind::U3,
    }
}

#[derive(Drop)]
struct Computed<N> {
    side: SideValue<N>,
    shown: Option<(i128, i128)>,
}

fn compute<N: Num>(op: BinOp, t: IntType, x: &SideValue<N>, y: &SideValue<N>) -> Computed<N>
    requires { IsWide t x.now.form }
    ensures side { result.side ≡ spec.binary_side N.ops op t x.now y.now }
    ensures shown { result.shown ≡ spec.binary_shown N.ops op t x.now y.now }
{
    let given = outcome(op, t, x, y);
    let form = form_of_numbers(op, t, &x.form, number(x), &y.form, number(y));
    Computed {
        side: SideValue {
            value: numeric(given.value),
            form: form_if(&given.value, form),
        },
        shown: shows_if(given.fault, given.shown),
    }
}

/// An operator on numbers of the type.
pub fn binary<N: Num>(
    mode: Mode,
    op: BinOp,
    t: IntType,
    x: &PairValue<N>,
    y: &PairValue<N>,
    faults: &mut Vec<Fault>,
) -> Result<PairValue<N>, Memory>
    requires left { IsWide t x.now.left.form }
    requires right { IsWide t x.now.right.form }
    ensures value { IfOk result (λ r. r
        ≡ (spec.binary_given N.ops op t mode (faultless x.now) (faultless y.now)).pair) }
    ensures faults { OnOk result (faults.new.items ≡ faults.old.items
        ++ (spec.binary_given N.ops op t mode (faultless x.now) (faultless y.now)).faults) }
{
    let left = compute(op, t, &x.left, &y.left);
    let right = compute(op, t, &x.right, &y.right);
    note(faults, mode, kind_of(op), left.shown, right.shown)?;
    Ok(pair_on(mode, left.side, right.side, are_same(x, y)))
}

fn convert_side<N: Num>(u: Option<IntType>, t: IntType, x: &SideValue<N>) -> SideValue<N>
    requires { IsWideIf u x.now.form }
    ensures { result ≡ spec.convert_side N.ops u t x.now }
{
    SideValue {
        value: converted(number(x), t),
        form: convert_form(u, t, number(x), &x.form),
    }
}

fn converted<N: Num>(n: Option<N>, t: IntType) -> Option<Value<N>>
    ensures { result ≡ option_map (λ n. Value.Num (N.ops.convert n t)) n }
{
    match n {
        None => None,
        Some(n) => Some(Value::Num(n.convert(t))),
    }
}

/// A conversion, from a type if it is one, to another.
pub fn conversion<N: Num>(
    mode: Mode,
    u: Option<IntType>,
    t: IntType,
    x: &PairValue<N>,
) -> PairValue<N>
    requires left { IsWideIf u x.now.left.form }
    requires right { IsWideIf u x.now.right.form }
    ensures { result ≡ (spec.convert_given N.ops u t mode (faultless x.now)).pair }
{
    let left = convert_side(u, t, &x.left);
    let right = convert_side(u, t, &x.right);
    pair_on(mode, left, right, same(x))
}

// ---- truths

/// A comparison of numbers.
pub fn comparison<N: Num>(mode: Mode, c: Cmp, x: &PairValue<N>, y: &PairValue<N>) -> PairValue<N>
    ensures { result ≡ (spec.compare_given N.ops c mode (faultless x.now) (faultless y.now)).pair }
{
    let left = compare_side(c, &x.left, &y.left);
    let right = compare_side(c, &x.right, &y.right);
    pair_on(mode, left, right, are_same(x, y))
}

/// A comparison of pointers.
pub fn pointer_comparison<N: Num>(
    mode: Mode,
    c: Cmp,
    x: &PairValue<N>,
    y: &PairValue<N>,
    faults: &mut Vec<Fault>,
) -> Result<PairValue<N>, Memory>
    ensures value { IfOk result (λ r. r
        ≡ (spec.pointers_given N.ops c mode (faultless x.now) (faultless y.now)).pair) }
    ensures faults { OnOk result (faults.new.items ≡ faults.old.items
        ++ (spec.pointers_given N.ops c mode (faultless x.now) (faultless y.now)).faults) }
{
    let left = truths(c, &x.left, &y.left);
    let right = truths(c, &x.right, &y.right);
    note(
        faults,
        mode,
        AlarmKind::U8,
        shown_if(left.mixed),
        shown_if(right.mixed),
    )?;
    Ok(pair_on(
        mode,
        pointers_side(left),
        pointers_side(right),
        are_same(x, y),
    ))
}

/// `!`.
pub fn negation<N: Num>(mode: Mode, x: &PairValue<N>) -> PairValue<N>
    ensures { result ≡ (spec.not_given N.ops mode (faultless x.now)).pair }
{
    pair_on(mode, not_side(&x.left), not_side(&x.right), same(x))
}

/// The same pointer.
pub fn same_pointer<N: Num>(mode: Mode, x: &PairValue<N>) -> Result<PairValue<N>, Memory>
    ensures { IfOk result (λ r. r ≡ (spec.same_given N.ops [] mode (faultless x.now)).pair) }
{
    let left = same_side(&x.left)?;
    let right = same_side(&x.right)?;
    Ok(pair_on(mode, left, right, same(x)))
}

// ---- operands that are evaluated later, if at all

/// `&&` where t is true, and `||` where it is false.
pub fn short<N: Num>(t: bool, mode: Mode, x: &PairValue<N>, y: Option<PairValue<N>>) -> PairValue<N>
    ensures { result ≡ (spec.short_given N.ops t mode (faultless x.now) (faultless_if y)).pair }
{
    match y {
        None => short_alone(t, mode, x),
        Some(y) => short_both(t, mode, x, &y),
    }
}

fn short_alone<N: Num>(t: bool, mode: Mode, x: &PairValue<N>) -> PairValue<N>
    ensures { result ≡ (spec.short_given N.ops t mode (faultless x.now) None).pair }
{
    let left = short_side(t, &x.left, &nothing());
    let right = short_side(t, &x.right, &nothing());
    pair_on(mode, left, right, same(x))
}

fn short_both<N: Num>(t: bool, mode: Mode, x: &PairValue<N>, y: &PairValue<N>) -> PairValue<N>
    ensures { result ≡ (spec.short_given N.ops t mode (faultless x.now) (Some (faultless y.now))).pair }
{
    let left = short_side(t, &x.left, &y.left);
    let right = short_side(t, &x.right, &y.right);
    pair_on(mode, left, right, are_same(x, y))
}

fn chosen_side<N: Num>(y: &SideValue<N>, z: &SideValue<N>) -> Result<SideValue<N>, Memory>
    ensures { IfOk result (λ r. r ≡ spec.chosen_side N.ops y.now z.now) }
{
    let value = Union::Join.values(&y.value, &z.value)?;
    Ok(formless(value))
}

// What is had of an operand that may not have been evaluated.
fn later_pair<N: Num>(y: Option<PairValue<N>>) -> PairValue<N>
    ensures left { result.left ≡ spec.later_side N.ops (faultless_if y) left }
    ensures right { result.right ≡ spec.later_side N.ops (faultless_if y) right }
{
    match y {
        None => PairValue {
            left: nothing(),
            right: nothing(),
            equal: true,
        },
        Some(y) => y,
    }
}

fn later_same<N: Num>(y: &Option<PairValue<N>>) -> bool
    ensures { result ≡ spec.later_same N.ops (faultless_if y.now) }
{
    match y {
        None => true,
        Some(y) => same(y),
    }
}

fn are_same_later<N: Num>(
    x: &PairValue<N>,
    y: &Option<PairValue<N>>,
    z: &Option<PairValue<N>>,
) -> bool
    ensures { result ≡ is_same N.ops x.now
        && (spec.later_same N.ops (faultless_if y.now) && spec.later_same N.ops (faultless_if z.now)) }
{
    same(x) && (later_same(y) && later_same(z))
}

/// `? :`.
pub fn chosen<N: Num>(
    mode: Mode,
    x: &PairValue<N>,
    y: Option<PairValue<N>>,
    z: Option<PairValue<N>>,
) -> Result<PairValue<N>, Memory>
    ensures { IfOk result (λ r. r
        ≡ (spec.chosen_given N.ops mode (faultless x.now) (faultless_if y) (faultless_if z)).pair) }
{
    let equal = are_same_later(x, &y, &z);
    let y = later_pair(y);
    let z = later_pair(z);
    let left = chosen_side(&y.left, &z.left)?;
    let right = chosen_side(&y.right, &z.right)?;
    Ok(pair_on(mode, left, right, equal))
}
