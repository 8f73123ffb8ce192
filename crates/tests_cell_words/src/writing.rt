//! Cells as text.

use crate::reading::Numbers;
use ep_bitslice::{CellName, Form, Segment, Side};
use ep_cells::{Cell, Value};
use ep_domain::Num;
use ep_int::{IntType, Scalar};
use ep_pointers::PtrValue;
use std::alloc::{AllocError, Global};

fn side(side: Side) -> &'static str {
    match side {
        Side::Left => "L",
        Side::Right => "R",
        Side::Shared => "S",
    }
}

fn int_type(t: IntType) -> &'static str {
    match t {
        IntType::I8 => "i8",
        IntType::U8 => "u8",
        IntType::I16 => "i16",
        IntType::U16 => "u16",
        IntType::I32 => "i32",
        IntType::U32 => "u32",
        IntType::I64 => "i64",
        IntType::U64 => "u64",
    }
}

fn scalar(what: Scalar) -> &'static str {
    match what {
        Scalar::Int(t) => int_type(t),
        Scalar::Pointer => "ptr",
    }
}

fn push_number(alloc: Global, out: &mut String, n: &Numbers) -> Result<(), AllocError> {
    let (lo, hi) = n.left().range();
    let (remainder, modulus) = (n.right().remainder(), n.right().modulus());
    let text = format!(in alloc; "{lo}..{hi}/{remainder}%{modulus}")?;
    out.push_str(text.as_str())
}

fn push_target(alloc: Global, out: &mut String, target: &(u32, Numbers)) -> Result<(), AllocError> {
    let block = target.0;
    let text = format!(in alloc; ";{block}:")?;
    out.push_str(text.as_str())?;
    push_number(alloc, out, &target.1)
}

fn push_pointer(alloc: Global, out: &mut String, p: &PtrValue<Numbers>) -> Result<(), AllocError> {
    out.push_str(if p.may_be_null() { "@null" } else { "@" })?;
    for target in p.targets() {
        push_target(alloc, out, target)?;
    }
    Ok(())
}

/// A value, or `none`.
pub fn push_value(
    alloc: Global,
    out: &mut String,
    value: &Option<Value<Numbers>>,
) -> Result<(), AllocError> {
    match value {
        None => out.push_str("none"),
        Some(v) => push_some(alloc, out, v),
    }
}

fn push_some(alloc: Global, out: &mut String, v: &Value<Numbers>) -> Result<(), AllocError> {
    match v {
        Value::Num(n) => push_number(alloc, out, n),
        Value::Ptr(p) => push_pointer(alloc, out, p),
    }
}

fn name(alloc: Global, n: &CellName) -> Result<String, AllocError> {
    let (side, t, block, offset) = (side(n.side), int_type(n.t), n.block, n.offset);
    format!(in alloc; "{side}.{block}.{offset}.{t}")
}

fn segment(alloc: Global, s: &Segment) -> Result<String, AllocError> {
    match s {
        Segment::Bits(n, from, to) => {
            let name = name(alloc, n)?;
            format!(in alloc; "+{name}.{from}.{to}")
        }
        Segment::Fixed(bits, width) => format!(in alloc; "+F.{bits}.{width}"),
    }
}

/// A form, or `-`.
pub fn push_form(alloc: Global, out: &mut String, form: &Option<Form>) -> Result<(), AllocError> {
    match form {
        None => out.push_str("-"),
        Some(f) => push_segments(alloc, out, f.segments()),
    }
}

fn push_segments(alloc: Global, out: &mut String, segments: &[Segment]) -> Result<(), AllocError> {
    for s in segments {
        let text = segment(alloc, s)?;
        out.push_str(text.as_str())?;
    }
    Ok(())
}

/// A cell, and a comma.
pub fn push_cell(alloc: Global, out: &mut String, c: &Cell<Numbers>) -> Result<(), AllocError> {
    let (side, block, offset, what) = (side(c.side), c.block, c.offset, scalar(c.what));
    let maybe = word(c.maybe);
    let head = format!(in alloc; "{side} {block} {offset} {what} {maybe} ")?;
    out.push_str(head.as_str())?;
    push_value(alloc, out, &c.value)?;
    out.push_str(" ")?;
    match &c.form {
        None => out.push_str("-")?,
        Some(f) => push_segments(alloc, out, f.form().segments())?,
    }
    out.push_str(", ")
}

/// `yes` or `no`.
pub fn word(is_so: bool) -> &'static str {
    if is_so { "yes" } else { "no" }
}

/// Cells, each with a comma behind it.
pub fn cells(alloc: Global, cells: &[Cell<Numbers>]) -> Result<String, AllocError> {
    let mut out = String::new(alloc);
    for c in cells {
        push_cell(alloc, &mut out, c)?;
    }
    Ok(out)
}
