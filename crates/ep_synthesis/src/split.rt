//! Cells become cells of single bytes.

ghost use Rattle.std.specs.Prelude.{◌≡◌, ◌<◌, ◌≤◌, ◌+◌, ◌^◌, true, IfOk, IfSome, None, Some};
ghost use Rattle.ep_int.specs.Types.{size_of};
ghost use Rattle.ep_bitslice.specs.Segments.{width};
ghost use Rattle.ep_cells.specs.Cells.{side_without};
ghost use Rattle.ep_cells.specs.States.{HasWidth};
ghost use Rattle.ep_reads.specs.Bytes.{order_on as the_order_on};
ghost use Rattle.ep_reads.specs.Split.{form_beside, byte_with, byte_of_pointer, byte_of, byte_cells};
ghost use Rattle.ep_scalar_reads.specs.Parts.{HasByte};
ghost use Rattle.ep_synthesis.specs.Parts.{IsSized};

use ep_bitslice::{Form, Side};
use ep_cell_rows::places::side_without;
use ep_cell_rows::rows::push;
use ep_cell_rows::values::{boxed, form_of};
use ep_cells::{Cell, Value};
use ep_domain::Num;
use ep_int::{IntType, Memory, Model, Order, Scalar};
use ep_pointers::PtrValue;
use ep_scalar_reads::Machines;
use ep_scalar_reads::byte::{byte_form, byte_value, has_targets, order_on, own_form};
use std::alloc::Global;

// ---- the bytes of a cell

fn known_beside<N: Num>(x: &Cell<N>, rest: Side) -> Option<Form>
    ensures { result ≡ form_beside x.now (Some rest) }
{
    match &x.form {
        Some(f) => Some(f.form().copy()),
        None => { if x.maybe { None } else { own_form(x, rest) } }
    }
}

/// What is known of the number of a cell, beside its value, where it stays on this side.
pub fn form_beside<N: Num>(x: &Cell<N>, rest: Option<Side>) -> Option<Form>
    ensures { result ≡ form_beside x.now rest }
{
    match rest {
        None => form_of(&x.form),
        Some(rest) => known_beside(x, rest),
    }
}

fn undefined_byte<N: Num>(side: Side, x: &Cell<N>, p: u32) -> Cell<N>
    requires { x.now.offset + p < 2 ^ 32 }
    ensures { result ≡ byte_with side x.now p None true None }
{
    Cell {
        side,
        block: x.block,
        offset: x.offset + p,
        what: Scalar::Int(IntType::U8),
        value: None,
        maybe: true,
        form: None,
    }
}

fn byte_with<N: Num>(
    alloc: Global,
    side: Side,
    x: &Cell<N>,
    p: u32,
    value: Option<N>,
    maybe: bool,
    form: Option<Form>,
) -> Result<Cell<N>, Memory>
    requires { x.now.offset + p < 2 ^ 32 }
    ensures { IfOk result (λ c. c ≡ byte_with side x.now p value maybe form) }
{
    match value {
        None => Ok(undefined_byte(side, x, p)),
        Some(n) => Ok(Cell {
            side,
            block: x.block,
            offset: x.offset + p,
            what: Scalar::Int(IntType::U8),
            value: Some(Value::Num(n)),
            maybe,
            form: boxed(alloc, form)?,
        }),
    }
}

fn byte_of_pointer<N: Num>(v: &PtrValue<N>) -> Option<N>
    ensures { result ≡ byte_of_pointer N.ops v.now }
{
    if v.may_be_null() {
        Some(N::single(0))
    } else {
        None
    }
}

fn byte_of_number<N: Num>(
    alloc: Global,
    o: Order,
    side: Side,
    f: &Option<Form>,
    x: &Cell<N>,
    n: &N,
    p: u32,
) -> Result<Cell<N>, Memory>
    requires last { x.now.offset + p < 2 ^ 32 }
    requires byte { HasByte x.now.what p }
    requires form { IfSome f.now (λ ss. HasWidth x.now.what (width ss)) }
    ensures { IfOk result (λ c. c ≡ byte_of N.ops o side f.now x.now x.now.what (Some (Value.Num n.now)) p) }
{
    match x.what {
        Scalar::Int(t) => {
            let k = ep_int::place(o, ep_int::bytes(t), p);
            byte_with(
                alloc,
                side,
                x,
                p,
                byte_value(t, k, n),
                x.maybe,
                byte_form(k, f),
            )
        }
        Scalar::Pointer => Ok(undefined_byte(side, x, p)),
    }
}

fn byte_of_address<N: Num>(
    alloc: Global,
    o: Order,
    side: Side,
    f: &Option<Form>,
    x: &Cell<N>,
    v: &PtrValue<N>,
    p: u32,
) -> Result<Cell<N>, Memory>
    requires { x.now.offset + p < 2 ^ 32 }
    ensures { IfOk result (λ c. c ≡ byte_of N.ops o side f.now x.now x.now.what (Some (Value.Ptr v.now)) p) }
{
    match x.what {
        Scalar::Int(_) => Ok(undefined_byte(side, x, p)),
        Scalar::Pointer => byte_with(
            alloc,
            side,
            x,
            p,
            byte_of_pointer(v),
            x.maybe || has_targets(v),
            None,
        ),
    }
}

fn byte_of_some<N: Num>(
    alloc: Global,
    o: Order,
    side: Side,
    f: &Option<Form>,
    x: &Cell<N>,
    v: &Value<N>,
    p: u32,
) -> Result<Cell<N>, Memory>
    requires last { x.now.offset + p < 2 ^ 32 }
    requires byte { HasByte x.now.what p }
    requires form { IfSome f.now (λ ss. HasWidth x.now.what (width ss)) }
    ensures { IfOk result (λ c. c ≡ byte_of N.ops o side f.now x.now x.now.what (Some v.now) p) }
{
    match v {
        Value::Num(n) => byte_of_number(alloc, o, side, f, x, n, p),
        Value::Ptr(v) => byte_of_address(alloc, o, side, f, x, v, p),
    }
}

fn byte_of<N: Num>(
    alloc: Global,
    o: Order,
    side: Side,
    f: &Option<Form>,
    x: &Cell<N>,
    p: u32,
) -> Result<Cell<N>, Memory>
    requires last { x.now.offset + p < 2 ^ 32 }
    requires byte { HasByte x.now.what p }
    requires form { IfSome f.now (λ ss. HasWidth x.now.what (width ss)) }
    ensures { IfOk result (λ c. c ≡ byte_of N.ops o side f.now x.now x.now.what x.now.value p) }
{
    match &x.value {
        None => Ok(undefined_byte(side, x, p)),
        Some(v) => byte_of_some(alloc, o, side, f, x, v, p),
    }
}

/// The bytes of a cell as cells of a side, with the slices of a form.
pub fn byte_cells<N: Num>(
    alloc: Global,
    model: Model,
    o: Order,
    side: Side,
    f: &Option<Form>,
    x: &Cell<N>,
) -> Result<Vec<Cell<N>>, Memory>
    requires last { x.now.offset + size_of model x.now.what ≤ 2 ^ 32 }
    requires form { IfSome f.now (λ ss. HasWidth x.now.what (width ss)) }
    ensures { IfOk result (λ v. v.items ≡ byte_cells N.ops model o side f.now x.now) }
{
    let mut out = Vec::new(alloc);
    let size = ep_int::size(model, x.what);
    for p in 0..size {
        let y = byte_of(alloc, o, side, f, x, p)?;
        push(&mut out, y)?;
    }
    Ok(out)
}

/// What a cell becomes on a side that it is split on.
pub fn split_parts<N: Num>(
    alloc: Global,
    machines: Machines,
    side: Side,
    x: &Cell<N>,
) -> Result<Vec<Cell<N>>, Memory>
    requires { IsSized machines.model x.now }
    ensures { IfOk result (λ v. v.items ≡ byte_cells N.ops machines.model (the_order_on side machines.orders) side
        (form_beside x.now (side_without side x.now.side)) x.now) }
{
    let f = form_beside(x, side_without(side, x.side));
    let o = order_on(side, machines.orders);
    let bytes = byte_cells(alloc, machines.model, o, side, &f, x)?;
    Ok(bytes)
}
