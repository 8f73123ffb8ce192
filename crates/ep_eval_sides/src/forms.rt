//! Forms of expressions.

ghost use Rattle.std.specs.Prelude.{◌≡◌, ◌<◌, ◌^◌, Option, None, Some, IfSome, IsTrue, false, List, int_le, pos};
ghost use Rattle.std.specs.Prelude.{if◌then◌else◌};
ghost use Rattle.ep_int.specs.Types.{InRange, bits_of, is_signed, representation};
ghost use Rattle.ep_bitslice.specs.Segments.{width};
ghost use Rattle.ep_evaluation.specs.Operators as spec;
ghost use Rattle.ep_evaluation.specs.Evaluation as evaluation;
ghost use Rattle.ep_cells.specs.Reshare as reshare;
ghost use Rattle.ep_eval_sides.specs.Forms.{IsWide, IsWideIf};

use ep_bitslice::Form;
use ep_domain::Num;
use ep_int::{BinOp, IntType, bits, wrap};

type Range = (i128, i128);

fn is_single(range: Range) -> bool
    ensures { result ≡ reshare.is_single range }
{
    range.0 == range.1
}

// The unsigned type of the same width.
fn unsigned(t: IntType) -> IntType
    ensures width { bits_of result ≡ bits_of t }
    ensures sign { is_signed result ≡ false }
{
    match t {
        IntType::I8 | IntType::U8 => IntType::U8,
        IntType::I16 | IntType::U16 => IntType::U16,
        IntType::I32 | IntType::U32 => IntType::U32,
        IntType::I64 | IntType::U64 => IntType::U64,
    }
}

// The bits of a number, in two's complement.
fn representation(t: IntType, v: i128) -> u64
    ensures value { result ≡ representation t v }
    ensures within { result < 2 ^ bits_of t }
{
    wrap(unsigned(t), v) as u64
}

/// The form of a constant of the type.
pub fn constant_form(t: IntType, v: i128) -> Option<Form>
    requires { InRange t v }
    ensures { result ≡ spec.constant_form t v }
{
    Some(Form::constant(t, v))
}

// The amount of a shift, where it is a single one below the width.
fn amount_in(t: IntType, range: Range) -> Option<u32>
    ensures value { result ≡ spec.amount_in t range }
    ensures within { IfSome result (λ k. k < bits_of t) }
{
    if is_single(range) && 0 <= range.0 && range.0 < i128::from(bits(t)) {
        return Some(range.0.unsigned_abs() as u32);
    }
    None
}

fn left_by(f: &Form, k: Option<u32>) -> Option<Form>
    requires { IfSome k (λ k. k < width f.now) }
    ensures { result ≡ spec.left_shift (Some f.now) k }
{
    match k {
        None => None,
        Some(k) => f.shl(k),
    }
}

fn left_shift(t: IntType, f: &Option<Form>, range: Range) -> Option<Form>
    requires { IsWide t f.now }
    ensures { result ≡ spec.left_shift f.now (spec.amount_in t range) }
{
    match f {
        None => None,
        Some(f) => left_by(f, amount_in(t, range)),
    }
}

fn right_by(f: &Form, k: Option<u32>) -> Option<Form>
    requires { IfSome k (λ k. k < width f.now) }
    ensures { result ≡ spec.right_shift (Some f.now) k }
{
    match k {
        None => None,
        Some(k) => f.shr(k),
    }
}

fn right_shift(t: IntType, f: &Option<Form>, range: Range) -> Option<Form>
    requires { IsWide t f.now }
    ensures { result ≡ spec.right_shift f.now (spec.amount_in t range) }
{
    match f {
        None => None,
        Some(f) => right_by(f, amount_in(t, range)),
    }
}

// Only of a number that can't be negative.
fn right_shift_of(t: IntType, f: &Option<Form>, least: i128, range: Range) -> Option<Form>
    requires { IsWide t f.now }
    ensures { result ≡ (if int_le (pos 0) least then spec.right_shift f.now (spec.amount_in t range) else None) }
{
    if 0 <= least {
        return right_shift(t, f, range);
    }
    None
}

// What a mask leaves of a form, where it is a single number.
fn mask_of(t: IntType, f: &Option<Form>, range: Range) -> Option<Form>
    ensures { result ≡ spec.mask_of t f.now range }
{
    match f {
        None => None,
        Some(f) => mask_some(t, f, range),
    }
}

fn mask_some(t: IntType, f: &Form, range: Range) -> Option<Form>
    ensures { result ≡ spec.mask_of t (Some f.now) range }
{
    if is_single(range) {
        return f.mask(representation(t, range.0));
    }
    None
}

// The right operand is the mask where it is a single number and the left one has a form, else the left one is.
fn and_form(t: IntType, f: &Option<Form>, r: Range, g: &Option<Form>, s: Range) -> Option<Form>
    ensures { result ≡ spec.and_form t f.now r g.now s }
{
    match f {
        None => mask_of(t, g, r),
        Some(f) => mask_either(t, f, r, g, s),
    }
}

fn mask_either(t: IntType, f: &Form, r: Range, g: &Option<Form>, s: Range) -> Option<Form>
    ensures { result ≡ spec.and_form t (Some f.now) r g.now s }
{
    if is_single(s) {
        return mask_some(t, f, s);
    }
    mask_of(t, g, r)
}

fn disjoint_with(f: &Form, g: &Option<Form>) -> Option<Form>
    ensures { result ≡ spec.disjoint_form (Some f.now) g.now }
{
    match g {
        None => None,
        Some(g) => Form::disjoint_or(f, g),
    }
}

fn disjoint_form(f: &Option<Form>, g: &Option<Form>) -> Option<Form>
    ensures { result ≡ spec.disjoint_form f.now g.now }
{
    match f {
        None => None,
        Some(f) => disjoint_with(f, g),
    }
}

/// The form of the result of an operator on numbers of these ranges.
pub fn form_by(
    op: BinOp,
    t: IntType,
    f: &Option<Form>,
    r: Range,
    g: &Option<Form>,
    s: Range,
) -> Option<Form>
    requires { IsWide t f.now }
    ensures { result ≡ spec.form_by op t f.now r g.now s }
{
    match op {
        BinOp::Add => disjoint_form(f, g),
        BinOp::Sub => None,
        BinOp::Mul => None,
        BinOp::Div => None,
        BinOp::Rem => None,
        BinOp::And => and_form(t, f, r, g, s),
        BinOp::Or => disjoint_form(f, g),
        BinOp::Xor => disjoint_form(f, g),
        BinOp::Shl => left_shift(t, f, s),
        BinOp::Shr => right_shift_of(t, f, r.0, s),
    }
}

fn form_with<N: Num>(
    op: BinOp,
    t: IntType,
    f: &Option<Form>,
    a: &N,
    g: &Option<Form>,
    b: Option<N>,
) -> Option<Form>
    requires { IsWide t f.now }
    ensures { result ≡ evaluation.form_of_numbers N.ops op t f.now (Some a.now) g.now b }
{
    match b {
        None => None,
        Some(b) => form_by(op, t, f, a.range(), g, b.range()),
    }
}

/// The form of the result of an operator on these numbers.
pub fn form_of_numbers<N: Num>(
    op: BinOp,
    t: IntType,
    f: &Option<Form>,
    a: Option<N>,
    g: &Option<Form>,
    b: Option<N>,
) -> Option<Form>
    requires { IsWide t f.now }
    ensures { result ≡ evaluation.form_of_numbers N.ops op t f.now a g.now b }
{
    match a {
        None => None,
        Some(a) => form_with(op, t, f, &a, g, b),
    }
}

// ---- conversions

fn wider_form(u: IntType, t: IntType, least: i128, f: &Form) -> Option<Form>
    requires wide { width f.now ≡ bits_of u }
    requires wider { bits_of u < bits_of t }
    ensures { result ≡ spec.converted_form u t least f.now }
{
    if !is_signed(u) || 0 <= least {
        return f.extend(bits(t));
    }
    None
}

fn is_signed(t: IntType) -> bool
    ensures { result ≡ is_signed t }
{
    ep_int::is_signed(t)
}

/// The form of a number of one type, from a least one on, after conversion to another.
pub fn converted_form(u: IntType, t: IntType, least: i128, f: &Form) -> Option<Form>
    requires { width f.now ≡ bits_of u }
    ensures { result ≡ spec.converted_form u t least f.now }
{
    if bits(t) == bits(u) {
        return Some(f.copy());
    }
    if bits(t) < bits(u) {
        return Some(f.truncate(bits(t)));
    }
    wider_form(u, t, least, f)
}

fn convert_some<N: Num>(u: IntType, t: IntType, n: &N, f: &Option<Form>) -> Option<Form>
    requires { IsWide u f.now }
    ensures { result ≡ evaluation.convert_form N.ops (Some u) t (Some n.now) f.now }
{
    match f {
        None => None,
        Some(f) => converted_form(u, t, n.range().0, f),
    }
}

fn convert_from<N: Num>(u: IntType, t: IntType, n: Option<N>, f: &Option<Form>) -> Option<Form>
    requires { IsWide u f.now }
    ensures { result ≡ evaluation.convert_form N.ops (Some u) t n f.now }
{
    match n {
        None => None,
        Some(n) => convert_some(u, t, &n, f),
    }
}

/// The form of a number after conversion, from a type if it is one.
pub fn convert_form<N: Num>(
    u: Option<IntType>,
    t: IntType,
    n: Option<N>,
    f: &Option<Form>,
) -> Option<Form>
    requires { IsWideIf u f.now }
    ensures { result ≡ evaluation.convert_form N.ops u t n f.now }
{
    match u {
        None => None,
        Some(u) => convert_from(u, t, n, f),
    }
}

/// A copy, of a value that is there.
pub fn form_if<N: Num>(n: &Option<N>, f: Option<Form>) -> Option<Form>
    ensures { result ≡ evaluation.form_if N.ops n.now f }
{
    match n {
        None => None,
        Some(_) => f,
    }
}
