//! Writing forms.

ghost use Rattle.std.specs.Prelude.{◌≡◌, ◌++◌, length, OnOk};
ghost use Rattle.std.specs.List.{flat_map};
ghost use Rattle.ep_bitslice.specs.Bits.{side_number, type_number};
ghost use Rattle.ep_cert_cells.specs.Bytes.{name_bytes, segment_bytes, form_bytes};

use crate::bytes::{put_byte, put_low};
use ep_bitslice::{BoxedForm, CellName, Form, Segment, Side};
use ep_int::{IntType, Memory};

pub(crate) fn side_byte(side: Side) -> u8
    ensures { result ≡ side_number side }
{
    match side {
        Side::Left => 0,
        Side::Right => 1,
        Side::Shared => 2,
    }
}

pub(crate) fn type_byte(t: IntType) -> u8
    ensures { result ≡ type_number t }
{
    match t {
        IntType::I8 => 0,
        IntType::U8 => 1,
        IntType::I16 => 2,
        IntType::U16 => 3,
        IntType::I32 => 4,
        IntType::U32 => 5,
        IntType::I64 => 6,
        IntType::U64 => 7,
    }
}

fn put_name(out: &mut Vec<u8>, name: &CellName) -> Result<(), Memory>
    ensures { OnOk result (out.new.items ≡ out.old.items ++ name_bytes name.now) }
{
    put_byte(out, side_byte(name.side))?;
    put_low(out, 4, u128::from(name.block))?;
    put_low(out, 4, u128::from(name.offset))?;
    put_byte(out, type_byte(name.t))
}

fn put_bits(out: &mut Vec<u8>, cell: &CellName, from: u8, to: u8) -> Result<(), Memory>
    ensures { OnOk result (out.new.items ≡ out.old.items ++ segment_bytes (Segment.Bits cell.now from to)) }
{
    put_byte(out, 0)?;
    put_name(out, cell)?;
    put_byte(out, from)?;
    put_byte(out, to)
}

fn put_fixed(out: &mut Vec<u8>, value: u64, width: u8) -> Result<(), Memory>
    ensures { OnOk result (out.new.items ≡ out.old.items ++ segment_bytes (Segment.Fixed value width)) }
{
    put_byte(out, 1)?;
    put_low(out, 8, u128::from(value))?;
    put_byte(out, width)
}

fn put_segment(out: &mut Vec<u8>, segment: &Segment) -> Result<(), Memory>
    ensures { OnOk result (out.new.items ≡ out.old.items ++ segment_bytes segment.now) }
{
    match segment {
        Segment::Bits(cell, from, to) => put_bits(out, cell, *from, *to),
        Segment::Fixed(value, width) => put_fixed(out, *value, *width),
    }
}

fn put_segments(out: &mut Vec<u8>, segments: &[Segment]) -> Result<(), Memory>
    ensures { OnOk result (out.new.items ≡ out.old.items ++ flat_map segment_bytes segments.now) }
{
    for s in segments {
        put_segment(out, s)?;
    }
    Ok(())
}

fn count(form: &Form) -> u8
    ensures { result ≡ length form.now }
{
    form.segments().len() as u8
}

fn put_some_form(out: &mut Vec<u8>, form: &BoxedForm) -> Result<(), Memory>
    ensures { OnOk result (out.new.items ≡ out.old.items ++ form_bytes (Some form.now)) }
{
    let form = form.form();
    put_byte(out, count(form))?;
    put_segments(out, form.segments())
}

/// A form, or that there is none.
pub(crate) fn put_form(out: &mut Vec<u8>, form: &Option<BoxedForm>) -> Result<(), Memory>
    ensures { OnOk result (out.new.items ≡ out.old.items ++ form_bytes form.now) }
{
    match form {
        None => put_byte(out, 0),
        Some(form) => put_some_form(out, form),
    }
}
