//! What is read of a scalar: of one cell that has it, or from its bytes.

ghost use Rattle.std.specs.Prelude.{◌≡◌, ◌<◌, ◌≤◌, ◌^◌, length, pos, IfOk, IfSome, None, Some};
ghost use Rattle.std.specs.List.{list_all, list_any};
ghost use Rattle.std.specs.Option.{option_map, option_and_then};
ghost use Rattle.ep_bitslice.specs.Segments.{width, concat_of, IsForm};
ghost use Rattle.ep_reads.specs.Read.{is_same_sort, is_exact, converted, whole_read, may_be_undefined, may_be_mixed};
ghost use Rattle.ep_reads.specs.Read.{unsigned_of, weighted, plus, sum_after, sum_of, integer_read, is_zero_value};
ghost use Rattle.ep_reads.specs.Read.{is_undefined_byte, pointer_read, read_from_bytes};
ghost use Rattle.ep_int.specs.declared.types.IntType.TheVariants.{U8};
ghost use Rattle.ep_scalar_reads.specs.Parts.{HaveByteForms, form_with, form_of_all};

use crate::byte::form_of_cell;
use ep_bitslice::Form;
use ep_cell_rows::values::{copy_form, copy_value};
use ep_cells::{Cell, Value};
use ep_domain::Num;
use ep_int::{BinOp, IntType, Memory, Model, Scalar};
use ep_pointers::PtrValue;
use ep_reads::ReadValue;
use std::alloc::Global;

// ---- one cell that has the whole scalar

fn is_integer(what: Scalar) -> bool
    ensures { result ≡ is_same_sort what (Scalar.Int U8) }
{
    match what {
        Scalar::Int(_) => true,
        Scalar::Pointer => false,
    }
}

fn is_same_sort(a: Scalar, b: Scalar) -> bool
    ensures { result ≡ is_same_sort a b }
{
    match a {
        Scalar::Int(_) => is_integer(b),
        Scalar::Pointer => !is_integer(b),
    }
}

/// Whether a cell begins at the offset and has the size and sort of the scalar.
pub fn is_exact<N: Num>(model: Model, what: Scalar, offset: u32, x: &Cell<N>) -> bool
    ensures { result ≡ is_exact model what offset x.now }
{
    x.offset == offset
        && ep_int::size(model, x.what) == ep_int::size(model, what)
        && is_same_sort(x.what, what)
}

fn converted_some<N: Num>(t: IntType, v: &Value<N>) -> Result<Value<N>, Memory>
    ensures { IfOk result (λ u. u ≡ converted N.ops (Scalar.Int t) v.now) }
{
    match v {
        Value::Num(n) => Ok(Value::Num(n.convert(t))),
        Value::Ptr(p) => Ok(Value::Ptr(p.copy()?)),
    }
}

fn converted_integer<N: Num>(t: IntType, v: &Option<Value<N>>) -> Result<Option<Value<N>>, Memory>
    ensures { IfOk result (λ u. u ≡ option_map (converted N.ops (Scalar.Int t)) v.now) }
{
    match v {
        None => Ok(None),
        Some(v) => Ok(Some(converted_some(t, v)?)),
    }
}

fn same_pointer<N: Num>(v: &Option<Value<N>>) -> Result<Option<Value<N>>, Memory>
    ensures { IfOk result (λ u. u ≡ option_map (converted N.ops Scalar.Pointer) v.now) }
{
    match v {
        None => Ok(None),
        Some(_) => Ok(copy_value(v)?),
    }
}

fn converted<N: Num>(what: Scalar, v: &Option<Value<N>>) -> Result<Option<Value<N>>, Memory>
    ensures { IfOk result (λ u. u ≡ option_map (converted N.ops what) v.now) }
{
    match what {
        Scalar::Int(t) => converted_integer(t, v),
        Scalar::Pointer => same_pointer(v),
    }
}

/// What is read of a scalar of which a cell has all, and nothing else.
pub fn whole_read<N: Num>(what: Scalar, x: &Cell<N>) -> Result<ReadValue<N>, Memory>
    ensures { IfOk result (λ r. r ≡ whole_read N.ops what x.now) }
{
    Ok(ReadValue {
        value: converted(what, &x.value)?,
        maybe: x.maybe,
        mixed: false,
        form: form_of_cell(x),
    })
}

// ---- bytes

fn may_be_undefined<N: Num>(bytes: &[ReadValue<N>]) -> bool
    ensures { result ≡ may_be_undefined bytes.now }
{
    bytes.iter().any(|r| r.maybe)
}

fn may_be_mixed<N: Num>(bytes: &[ReadValue<N>]) -> bool
    ensures { result ≡ may_be_mixed bytes.now }
{
    bytes.iter().any(|r| r.mixed)
}

// ---- an integer from its bytes

fn unsigned_of(t: IntType) -> IntType
    ensures { result ≡ unsigned_of t }
{
    match t {
        IntType::I8 => IntType::U8,
        IntType::U8 => IntType::U8,
        IntType::I16 => IntType::U16,
        IntType::U16 => IntType::U16,
        IntType::I32 => IntType::U32,
        IntType::U32 => IntType::U32,
        IntType::I64 => IntType::U64,
        IntType::U64 => IntType::U64,
    }
}

// The weight of a byte of a number.
fn weight(i: u32) -> i128
    requires { i < 8 }
    ensures { result ≡ pos (256 ^ i) }
{
    match i {
        0 => 1,
        1 => 0x100,
        2 => 0x1_0000,
        3 => 0x100_0000,
        4 => 0x1_0000_0000,
        5 => 0x100_0000_0000,
        6 => 0x1_0000_0000_0000,
        _ => 0x100_0000_0000_0000,
    }
}

fn weighted_number<N: Num>(t: IntType, i: u32, v: &Value<N>) -> Option<N>
    requires { i < 8 }
    ensures { result ≡ weighted N.ops t i (Some v.now) }
{
    match v {
        Value::Num(n) => N::op(BinOp::Mul, t, n, &N::single(weight(i))).value,
        Value::Ptr(_) => None,
    }
}

fn weighted<N: Num>(t: IntType, i: u32, v: &Option<Value<N>>) -> Option<N>
    requires { i < 8 }
    ensures { result ≡ weighted N.ops t i v.now }
{
    match v {
        None => None,
        Some(v) => weighted_number(t, i, v),
    }
}

fn plus_some<N: Num>(t: IntType, a: N, b: Option<N>) -> Option<N>
    ensures { result ≡ plus N.ops t (Some a) b }
{
    match b {
        None => None,
        Some(b) => N::op(BinOp::Add, t, &a, &b).value,
    }
}

fn plus<N: Num>(t: IntType, a: Option<N>, b: Option<N>) -> Option<N>
    ensures { result ≡ plus N.ops t a b }
{
    match a {
        None => None,
        Some(a) => plus_some(t, a, b),
    }
}

fn sum_after<N: Num>(t: IntType, first: Option<N>, bytes: &[ReadValue<N>]) -> Option<N>
    requires { length bytes.now ≤ 7 }
    ensures { result ≡ sum_after N.ops t first 1 bytes.now }
{
    let mut sum = first;
    let mut i = 1;
    for r in bytes {
        sum = plus(t, sum, weighted(t, i, &r.value));
        i += 1;
    }
    sum
}

fn sum_of<N: Num>(t: IntType, bytes: &[ReadValue<N>]) -> Option<N>
    requires { length bytes.now ≤ 8 }
    ensures { result ≡ sum_of N.ops t bytes.now }
{
    match bytes.split_first() {
        None => None,
        Some((r, rest)) => sum_after(t, weighted(t, 0, &r.value), rest),
    }
}

fn converted_sum<N: Num>(t: IntType, sum: Option<N>) -> Option<Value<N>>
    ensures { result ≡ option_map (λ n. Value.Num (N.ops.convert n t)) sum }
{
    match sum {
        None => None,
        Some(n) => Some(Value::Num(n.convert(t))),
    }
}

// Does nothing: its contract is that a form is one.
fn is_form(form: &Option<Form>)
    ensures { IfSome form.now IsForm }
{
    match form {
        None => {}
        Some(form) => {
            form.segments();
        }
    }
}

fn joined_some(low: &Form, high: &Option<Form>) -> Option<Form>
    ensures { result ≡ option_and_then (λ g. concat_of low.now g) high.now }
{
    match high {
        None => None,
        Some(high) => Form::concat(low, high),
    }
}

fn joined(low: &Option<Form>, high: &Option<Form>) -> Option<Form>
    ensures { result ≡ option_and_then (λ f. option_and_then (λ g. concat_of f g) high.now) low.now }
{
    match low {
        None => None,
        Some(low) => joined_some(low, high),
    }
}

// A form, and those of bytes behind it.
fn form_with<N: Num>(first: Option<Form>, bytes: &[ReadValue<N>]) -> Option<Form>
    requires few { length bytes.now ≤ 7 }
    requires first { IfSome first (λ ss. width ss ≡ 8) }
    requires form { IfSome first IsForm }
    requires forms { HaveByteForms bytes.now }
    ensures { result ≡ form_with first bytes.now }
{
    let mut form = first;
    for r in bytes {
        form = joined(&form, &r.form);
        is_form(&form);
    }
    form
}

fn form_of_all<N: Num>(bytes: &[ReadValue<N>]) -> Option<Form>
    requires some { 0 < length bytes.now }
    requires few { length bytes.now ≤ 8 }
    requires forms { HaveByteForms bytes.now }
    ensures { result ≡ form_of_all bytes.now }
{
    match bytes.split_first() {
        None => None,
        Some((r, rest)) => {
            let first = copy_form(&r.form);
            is_form(&first);
            form_with(first, rest)
        }
    }
}

fn integer_read<N: Num>(t: IntType, bytes: &[ReadValue<N>]) -> ReadValue<N>
    requires some { 0 < length bytes.now }
    requires few { length bytes.now ≤ 8 }
    requires forms { HaveByteForms bytes.now }
    ensures { result ≡ integer_read N.ops t bytes.now }
{
    ReadValue {
        value: converted_sum(t, sum_of(unsigned_of(t), bytes)),
        maybe: may_be_undefined(bytes),
        mixed: may_be_mixed(bytes),
        form: form_of_all(bytes),
    }
}

// ---- a pointer from its bytes

fn is_zero_number<N: Num>(n: &N) -> bool
    ensures { result ≡ is_zero_value N.ops (Some (Value.Num n.now)) }
{
    n.range().0 == n.range().1 && n.range().0 == 0
}

fn is_zero_some<N: Num>(v: &Value<N>) -> bool
    ensures { result ≡ is_zero_value N.ops (Some v.now) }
{
    match v {
        Value::Num(n) => is_zero_number(n),
        Value::Ptr(_) => false,
    }
}

fn is_zero_value<N: Num>(v: &Option<Value<N>>) -> bool
    ensures { result ≡ is_zero_value N.ops v.now }
{
    match v {
        None => false,
        Some(v) => is_zero_some(v),
    }
}

fn is_undefined_byte<N: Num>(r: &ReadValue<N>) -> bool
    ensures { result ≡ is_undefined_byte r.now }
{
    match &r.value {
        None => !r.mixed,
        Some(_) => false,
    }
}

fn are_zeros<N: Num>(bytes: &[ReadValue<N>]) -> bool
    ensures { result ≡ list_all (λ r. is_zero_value N.ops r.value) bytes.now }
{
    bytes.iter().all(|r| is_zero_value(&r.value))
}

fn is_some_undefined<N: Num>(bytes: &[ReadValue<N>]) -> bool
    ensures { result ≡ list_any is_undefined_byte bytes.now }
{
    bytes.iter().any(|r| is_undefined_byte(r))
}

fn without_value<N: Num>(maybe: bool, mixed: bool) -> ReadValue<N>
    ensures { result ≡ record { value = None; maybe = maybe; mixed = mixed; form = None } }
{
    ReadValue {
        value: None,
        maybe,
        mixed,
        form: None,
    }
}

fn pointer_read<N: Num>(alloc: Global, bytes: &[ReadValue<N>]) -> ReadValue<N>
    ensures { result ≡ pointer_read N.ops bytes.now }
{
    if are_zeros(bytes) {
        ReadValue {
            value: Some(Value::Ptr(PtrValue::null(alloc))),
            maybe: may_be_undefined(bytes),
            mixed: false,
            form: None,
        }
    } else if is_some_undefined(bytes) {
        without_value(true, false)
    } else {
        without_value(may_be_undefined(bytes), true)
    }
}

// ---- any scalar

/// What is read of a scalar with these bytes, the lowest first.
pub fn read_from_bytes<N: Num>(alloc: Global, what: Scalar, bytes: &[ReadValue<N>]) -> ReadValue<N>
    requires some { 0 < length bytes.now }
    requires few { length bytes.now ≤ 8 }
    requires forms { HaveByteForms bytes.now }
    ensures { result ≡ read_from_bytes N.ops what bytes.now }
{
    match what {
        Scalar::Int(t) => integer_read(t, bytes),
        Scalar::Pointer => pointer_read(alloc, bytes),
    }
}
