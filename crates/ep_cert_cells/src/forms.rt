//! Reading forms.

ghost use Rattle.std.specs.Prelude.{◌≡◌, ◌<◌, ◌≤◌, ◌-◌, ◌↔◌, ◌∷◌, IsTrue, IfSome, IfNone};
ghost use Rattle.std.specs.Option.{option_map};
ghost use Rattle.ep_bitslice.specs.Segments.{bits, run_bits, fixed_bits, segment_bits, IsSegment};
ghost use Rattle.ep_cert_cells.specs.Reading.{side_at, small_type, great_type, type_of, type_at, name_at, bits_at};
ghost use Rattle.ep_cert_cells.specs.Reading.{fixed_at, segment_at, list_at, form_of, form_from, form_at};
ghost use Rattle.ep_cert_cells.specs.Reading.{before, Answers};

use crate::Unread;
use crate::bytes::{byte, eight, four};
use ep_bitslice::{BoxedForm, CellName, Form, Segment, Side};
use ep_int::IntType;
use std::alloc::Global;

/// A byte that stands for a side.
pub(crate) fn side_at(bytes: &[u8]) -> Option<(Side, &[u8])>
    ensures { option_map (λ p. (p.0, p.1.now)) result ≡ side_at bytes.now }
{
    let (byte, rest) = byte(bytes)?;
    match byte {
        0 => Some((Side::Left, rest)),
        1 => Some((Side::Right, rest)),
        2 => Some((Side::Shared, rest)),
        _ => None,
    }
}

fn small_type(byte: u8) -> Option<IntType>
    ensures { result ≡ small_type byte }
{
    match byte {
        0 => Some(IntType::I8),
        1 => Some(IntType::U8),
        2 => Some(IntType::I16),
        3 => Some(IntType::U16),
        _ => None,
    }
}

fn great_type(byte: u8) -> Option<IntType>
    ensures { result ≡ great_type byte }
{
    match byte {
        4 => Some(IntType::I32),
        5 => Some(IntType::U32),
        6 => Some(IntType::I64),
        7 => Some(IntType::U64),
        _ => None,
    }
}

/// The integer type for which a byte stands.
#[tactic(auto, unfolding(crate::specs::Reading::type_of))]
pub(crate) fn type_of(byte: u8) -> Option<IntType>
    ensures { result ≡ type_of byte }
{
    if byte < 4 {
        small_type(byte)
    } else {
        great_type(byte)
    }
}

fn type_at(bytes: &[u8]) -> Option<(IntType, &[u8])>
    ensures { option_map (λ p. (p.0, p.1.now)) result ≡ type_at bytes.now }
{
    let (byte, rest) = byte(bytes)?;
    let t = type_of(byte)?;
    Some((t, rest))
}

#[tactic(auto, unfolding(crate::specs::Reading::name_at))]
fn name_at(bytes: &[u8]) -> Option<(CellName, &[u8])>
    ensures { option_map (λ p. (p.0, p.1.now)) result ≡ name_at bytes.now }
{
    let (side, rest) = side_at(bytes)?;
    let (block, rest) = four(rest)?;
    let (offset, rest) = four(rest)?;
    let (t, rest) = type_at(rest)?;
    let name = CellName {
        side,
        block,
        offset,
        t,
    };
    Some((name, rest))
}

#[tactic(auto, unfolding(crate::specs::Reading::bits_at))]
fn bits_at(bytes: &[u8]) -> Option<(Segment, &[u8])>
    ensures { option_map (λ p. (p.0, p.1.now)) result ≡ bits_at bytes.now }
{
    let (cell, rest) = name_at(bytes)?;
    let (from, rest) = byte(rest)?;
    let (to, rest) = byte(rest)?;
    Some((Segment::Bits(cell, from, to), rest))
}

#[tactic(auto, unfolding(crate::specs::Reading::fixed_at))]
fn fixed_at(bytes: &[u8]) -> Option<(Segment, &[u8])>
    ensures { option_map (λ p. (p.0, p.1.now)) result ≡ fixed_at bytes.now }
{
    let (value, rest) = eight(bytes)?;
    let (width, rest) = byte(rest)?;
    Some((Segment::Fixed(value, width), rest))
}

#[tactic(auto, unfolding(crate::specs::Reading::segment_at))]
fn segment_at(bytes: &[u8]) -> Option<(Segment, &[u8])>
    ensures { option_map (λ p. (p.0, p.1.now)) result ≡ segment_at bytes.now }
{
    let (tag, rest) = byte(bytes)?;
    match tag {
        0 => bits_at(rest),
        1 => fixed_at(rest),
        _ => None,
    }
}

fn segments(alloc: Global, count: u8, bytes: &[u8]) -> Result<(Vec<Segment>, &[u8]), Unread>
    ensures { Answers (λ p. (p.0.items, p.1.now)) result (list_at segment_at count bytes.now) }
{
    let mut segments = Vec::new(alloc);
    let mut rest = bytes;
    for _ in 0..count {
        match segment_at(rest) {
            None => return Err(Unread::Misspelled),
            Some((one, behind)) => {
                segments.push(one)?;
                rest = behind;
            }
        }
    }
    Ok((segments, rest))
}

// The bits of a cell from one to before another, and past those of its type too.
fn run_form(cell: CellName, from: u8, to: u8) -> Option<Form>
    ensures some { IfSome result (λ f. bits f ≡ run_bits cell from (to - from)) }
    ensures none { IfNone result ((from < to) × (to ≤ 64) → ⊥) }
{
    if from >= to || to > 64 {
        return None;
    }
    let wide = CellName {
        t: IntType::U64,
        ..cell
    };
    let part = Form::of_cell(wide).slice(u32::from(from), u32::from(to));
    Some(part.rename(&wide, &cell))
}

fn fixed_form(value: u64, width: u8) -> Option<Form>
    ensures some { IfSome result (λ f. bits f ≡ fixed_bits width value) }
    ensures none { IfNone result ((0 < width) × (width ≤ 64) → ⊥) }
{
    if width == 0 || width > 64 {
        return None;
    }
    let whole = Form::constant(IntType::U64, i128::from(value));
    Some(whole.truncate(u32::from(width)))
}

// The bits of a segment.
fn segment_form(segment: &Segment) -> Option<Form>
    ensures some { IfSome result (λ f. bits f ≡ segment_bits segment.now) }
    ensures none { IfNone result (IsSegment segment.now → ⊥) }
{
    match *segment {
        Segment::Bits(cell, from, to) => run_form(cell, from, to),
        Segment::Fixed(value, width) => fixed_form(value, width),
    }
}

fn are_same(a: &[Segment], b: &[Segment]) -> bool
    ensures { IsTrue result ↔ (a.now ≡ b.now) }
{
    *a == *b
}

// The form of all these segments, if they are in normal form.
fn form_of(all: &[Segment], first: &Segment, rest: &[Segment]) -> Option<Form>
    requires { all.now ≡ first.now ∷ rest.now }
    ensures { result ≡ form_of all.now }
{
    let mut whole = segment_form(first)?;
    for s in rest {
        let one = segment_form(s)?;
        whole = Form::concat(&whole, &one)?;
    }
    if are_same(whole.segments(), all) {
        Some(whole)
    } else {
        None
    }
}

fn form_from<'a>(
    alloc: Global,
    segments: &[Segment],
    rest: &'a [u8],
) -> Result<(Option<BoxedForm>, &'a [u8]), Unread>
    ensures { Answers (λ p. (p.0, p.1.now)) result (before (form_from segments.now) rest.now) }
{
    match segments {
        [] => Ok((None, rest)),
        [first, more @ ..] => match form_of(segments, first, more) {
            None => Err(Unread::Misspelled),
            Some(form) => Ok((Some(BoxedForm::new(alloc, form)?), rest)),
        },
    }
}

/// A form, or that there is none.
#[tactic(auto, unfolding(crate::specs::Reading::form_at))]
pub(crate) fn form_at(alloc: Global, bytes: &[u8]) -> Result<(Option<BoxedForm>, &[u8]), Unread>
    ensures { Answers (λ p. (p.0, p.1.now)) result (form_at bytes.now) }
{
    let Some((count, rest)) = byte(bytes) else {
        return Err(Unread::Misspelled);
    };
    match segments(alloc, count, rest) {
        Err(why) => Err(why),
        Ok((segments, rest)) => form_from(alloc, &segments, rest),
    }
}
