//! What is known of single bytes of cells.

ghost use Rattle.std.specs.Prelude.{◌≡◌, ◌<◌, ◌≤◌, ◌+◌, ◌*◌, IfSome, Some, None, if◌then◌else◌};
ghost use Rattle.std.specs.Option.{option_map};
ghost use Rattle.ep_bitslice.specs.Segments.{width};
ghost use Rattle.ep_cells.specs.States.{HasWidth};
ghost use Rattle.ep_reads.specs.Bytes.{order_on, byte_value, byte_form, own_form, form_or, form_of_cell, has_targets};
ghost use Rattle.ep_reads.specs.Bytes.{is_null_alone, zero_form, undefined_byte, unknown_byte, number_byte};
ghost use Rattle.ep_reads.specs.Bytes.{pointer_byte, byte_of_value, byte_of_cell};
ghost use Rattle.ep_scalar_reads.specs.Parts.{HasFittingForm, HasByte};

use ep_bitslice::{CellName, Form, Side};
use ep_cells::{Cell, Value};
use ep_domain::Num;
use ep_int::{BinOp, IntType, Order, Scalar};
use ep_pointers::PtrValue;
use ep_reads::ReadValue;

/// The byte order of a side.
pub fn order_on(side: Side, orders: (Order, Order)) -> Order
    ensures { result ≡ order_on side orders }
{
    match side {
        Side::Left => orders.0,
        Side::Right => orders.1,
        Side::Shared => orders.0,
    }
}

/// The value of a byte of a number, the lowest first.
pub fn byte_value<N: Num>(t: IntType, k: u32, n: &N) -> Option<N>
    requires { k < 8 }
    ensures { result ≡ byte_value N.ops t k n.now }
{
    match N::op(BinOp::Shr, t, n, &N::single(i128::from(8 * k))).value {
        None => None,
        Some(v) => Some(v.convert(IntType::U8)),
    }
}

/// The bits of a byte of a form.
pub fn byte_form(k: u32, form: &Option<Form>) -> Option<Form>
    requires small { k < 8 }
    requires wide { IfSome form.now (λ ss. 8 * k + 8 ≤ width ss) }
    ensures { result ≡ option_map (byte_form k) form.now }
{
    match form {
        None => None,
        Some(form) => Some(form.slice(8 * k, 8 * k + 8)),
    }
}

/// The bits of an integer cell itself, on a side.
pub fn own_form<N: Num>(x: &Cell<N>, side: Side) -> Option<Form>
    ensures { result ≡ own_form (record x.now { side = side }) x.now.what }
{
    match x.what {
        Scalar::Int(t) => Some(Form::of_cell(CellName {
            side,
            block: x.block,
            offset: x.offset,
            t,
        })),
        Scalar::Pointer => None,
    }
}

fn stored_or_own<N: Num>(x: &Cell<N>) -> Option<Form>
    ensures { result ≡ form_or x.now.form (own_form x.now x.now.what) }
{
    match &x.form {
        None => own_form(x, x.side),
        Some(f) => Some(f.form().copy()),
    }
}

/// The form of a cell, or of the cell itself.
pub fn form_of_cell<N: Num>(x: &Cell<N>) -> Option<Form>
    ensures { result ≡ form_of_cell x.now }
{
    if x.maybe { None } else { stored_or_own(x) }
}

/// Whether a pointer may be into some block.
pub fn has_targets<N: Num>(p: &PtrValue<N>) -> bool
    ensures { result ≡ has_targets p.now }
{
    p.targets().iter().any(|_t| true)
}

fn is_null_alone<N: Num>(p: &PtrValue<N>) -> bool
    ensures { result ≡ is_null_alone p.now }
{
    p.may_be_null() && !has_targets(p)
}

fn undefined_byte<N: Num>() -> ReadValue<N>
    ensures { result ≡ undefined_byte }
{
    ReadValue {
        value: None,
        maybe: true,
        mixed: false,
        form: None,
    }
}

/// A byte of no cell may be whatever a byte can be.
pub fn unknown_byte<N: Num>() -> ReadValue<N>
    ensures { result ≡ unknown_byte N.ops }
{
    ReadValue {
        value: Some(Value::Num(N::top(IntType::U8))),
        maybe: true,
        mixed: true,
        form: None,
    }
}

fn number_of<N: Num>(n: Option<N>) -> Option<Value<N>>
    ensures { result ≡ option_map Value.Num n }
{
    match n {
        None => None,
        Some(n) => Some(Value::Num(n)),
    }
}

fn number_byte<N: Num>(x: &Cell<N>, t: IntType, k: u32, n: &N) -> ReadValue<N>
    requires small { k < 8 }
    requires wide { IfSome (form_of_cell x.now) (λ ss. 8 * k + 8 ≤ width ss) }
    ensures { result ≡ number_byte N.ops x.now t k n.now }
{
    ReadValue {
        value: number_of(byte_value(t, k, n)),
        maybe: x.maybe,
        mixed: false,
        form: byte_form(k, &form_of_cell(x)),
    }
}

fn zero_form(maybe: bool) -> Option<Form>
    ensures { result ≡ (if maybe then None else Some zero_form) }
{
    if maybe {
        None
    } else {
        Some(Form::constant(IntType::U8, 0))
    }
}

fn pointer_byte<N: Num>(maybe: bool, p: &PtrValue<N>) -> ReadValue<N>
    ensures { result ≡ pointer_byte N.ops maybe p.now }
{
    if is_null_alone(p) {
        ReadValue {
            value: Some(Value::Num(N::single(0))),
            maybe,
            mixed: false,
            form: zero_form(maybe),
        }
    } else {
        ReadValue {
            value: None,
            maybe,
            mixed: true,
            form: None,
        }
    }
}

fn byte_of_number<N: Num>(o: Order, x: &Cell<N>, n: &N, p: u32) -> ReadValue<N>
    requires byte { HasByte x.now.what p }
    requires form { HasFittingForm x.now }
    ensures { result ≡ byte_of_value N.ops o x.now x.now.what (Some (Value.Num n.now)) p }
{
    match x.what {
        Scalar::Int(t) => number_byte(x, t, ep_int::place(o, ep_int::bytes(t), p), n),
        Scalar::Pointer => undefined_byte(),
    }
}

fn byte_of_pointer<N: Num>(o: Order, x: &Cell<N>, v: &PtrValue<N>, p: u32) -> ReadValue<N>
    ensures { result ≡ byte_of_value N.ops o x.now x.now.what (Some (Value.Ptr v.now)) p }
{
    match x.what {
        Scalar::Int(_) => undefined_byte(),
        Scalar::Pointer => pointer_byte(x.maybe, v),
    }
}

fn byte_of_some<N: Num>(o: Order, x: &Cell<N>, v: &Value<N>, p: u32) -> ReadValue<N>
    requires byte { HasByte x.now.what p }
    requires form { HasFittingForm x.now }
    ensures { result ≡ byte_of_value N.ops o x.now x.now.what (Some v.now) p }
{
    match v {
        Value::Num(n) => byte_of_number(o, x, n, p),
        Value::Ptr(v) => byte_of_pointer(o, x, v, p),
    }
}

/// The byte at a place of a cell.
pub fn byte_of_cell<N: Num>(o: Order, x: &Cell<N>, p: u32) -> ReadValue<N>
    requires byte { HasByte x.now.what p }
    requires form { HasFittingForm x.now }
    ensures { result ≡ byte_of_cell N.ops o x.now p }
{
    match &x.value {
        None => undefined_byte(),
        Some(v) => byte_of_some(o, x, v, p),
    }
}
