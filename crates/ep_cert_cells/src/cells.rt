//! Reading cells.

ghost use Rattle.std.specs.Prelude.{◌≡◌};
ghost use Rattle.std.specs.Option.{option_map};
ghost use Rattle.ep_cert_cells.specs.Reading.{number_at, pointer_at, number_value, pointer_value, value_at, scalar_of};
ghost use Rattle.ep_cert_cells.specs.Reading.{scalar_at, header_at, form_at, made_at, both_at, cell_at, cell_from};
ghost use Rattle.ep_cert_cells.specs.Reading.{then_at, before, list_at, Answers};

use crate::Unread;
use crate::bytes::{byte, flag_at, four};
use crate::forms::{form_at, side_at, type_of};
use crate::numbers::{Numbers, number_at};
use crate::pointers::pointer_at;
use ep_bitslice::Side;
use ep_cells::{Cell, Value};
use ep_int::Scalar;
use std::alloc::Global;

/// What stands before a cell's value.
#[derive(Clone, Copy, Debug)]
pub struct Header {
    pub side: Side,
    pub block: u32,
    /// In bytes, from the start of the block.
    pub offset: u32,
    pub what: Scalar,
    /// Whether the cell may be undefined.
    pub maybe: bool,
}

fn scalar_of(byte: u8) -> Option<Scalar>
    ensures { result ≡ scalar_of byte }
{
    if byte == 8 {
        return Some(Scalar::Pointer);
    }
    let t = type_of(byte)?;
    Some(Scalar::Int(t))
}

fn scalar_at(bytes: &[u8]) -> Option<(Scalar, &[u8])>
    ensures { option_map (λ p. (p.0, p.1.now)) result ≡ scalar_at bytes.now }
{
    let (byte, rest) = byte(bytes)?;
    let what = scalar_of(byte)?;
    Some((what, rest))
}

#[tactic(auto, unfolding(crate::specs::Reading::header_at))]
fn header_at(bytes: &[u8]) -> Option<(Header, &[u8])>
    ensures { option_map (λ p. (p.0, p.1.now)) result ≡ header_at bytes.now }
{
    let (side, rest) = side_at(bytes)?;
    let (block, rest) = four(rest)?;
    let (offset, rest) = four(rest)?;
    let (what, rest) = scalar_at(rest)?;
    let (maybe, rest) = flag_at(rest)?;
    let header = Header {
        side,
        block,
        offset,
        what,
        maybe,
    };
    Some((header, rest))
}

fn number_value(bytes: &[u8]) -> Result<(Option<Value<Numbers>>, &[u8]), Unread>
    ensures { Answers (λ p. (p.0, p.1.now)) result (made_at number_value number_at bytes.now) }
{
    match number_at(bytes) {
        None => Err(Unread::Misspelled),
        Some((number, rest)) => Ok((Some(Value::Num(number)), rest)),
    }
}

fn pointer_value(alloc: Global, bytes: &[u8]) -> Result<(Option<Value<Numbers>>, &[u8]), Unread>
    ensures { Answers (λ p. (p.0, p.1.now)) result (made_at pointer_value pointer_at bytes.now) }
{
    match pointer_at(alloc, bytes) {
        Err(why) => Err(why),
        Ok((pointer, rest)) => Ok((Some(Value::Ptr(pointer)), rest)),
    }
}

#[tactic(auto, unfolding(crate::specs::Reading::value_at))]
fn value_at(alloc: Global, bytes: &[u8]) -> Result<(Option<Value<Numbers>>, &[u8]), Unread>
    ensures { Answers (λ p. (p.0, p.1.now)) result (value_at bytes.now) }
{
    let Some((sort, rest)) = byte(bytes) else {
        return Err(Unread::Misspelled);
    };
    match sort {
        0 => Ok((None, rest)),
        1 => number_value(rest),
        2 => pointer_value(alloc, rest),
        _ => Err(Unread::Misspelled),
    }
}

// The cell of which all but the form is read.
fn with_form<'a>(
    alloc: Global,
    header: Header,
    value: Option<Value<Numbers>>,
    bytes: &'a [u8],
) -> Result<(Cell<Numbers>, &'a [u8]), Unread>
    ensures { Answers (λ p. (p.0, p.1.now)) result
        (made_at (λ f. cell_from (header, (value, f))) form_at bytes.now) }
{
    match form_at(alloc, bytes) {
        Err(why) => Err(why),
        Ok((form, rest)) => {
            let cell = Cell {
                side: header.side,
                block: header.block,
                offset: header.offset,
                what: header.what,
                value,
                maybe: header.maybe,
                form,
            };
            Ok((cell, rest))
        }
    }
}

#[tactic(auto, unfolding(crate::specs::Reading::cell_at))]
fn cell_at(alloc: Global, bytes: &[u8]) -> Result<(Cell<Numbers>, &[u8]), Unread>
    ensures { Answers (λ p. (p.0, p.1.now)) result (cell_at bytes.now) }
{
    let Some((header, rest)) = header_at(bytes) else {
        return Err(Unread::Misspelled);
    };
    match value_at(alloc, rest) {
        Err(why) => Err(why),
        Ok((value, rest)) => with_form(alloc, header, value, rest),
    }
}

/// So many cells, as they stand.
pub fn cells_at(
    alloc: Global,
    count: u32,
    bytes: &[u8],
) -> Result<(Vec<Cell<Numbers>>, &[u8]), Unread>
    ensures { Answers (λ p. (p.0.items, p.1.now)) result (list_at cell_at count bytes.now) }
{
    let mut cells = Vec::new(alloc);
    let mut rest = bytes;
    for _ in 0..count {
        match cell_at(alloc, rest) {
            Err(why) => return Err(why),
            Ok((one, behind)) => {
                cells.push(one)?;
                rest = behind;
            }
        }
    }
    Ok((cells, rest))
}
