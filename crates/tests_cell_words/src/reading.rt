//! Cells as the table spells them.

use ep_bitslice::{BoxedForm, CellName, Form, Side};
use ep_cells::{ByteRange, Cell, Value};
use ep_congruence::Congruence;
use ep_domain::{Num, Pair};
use ep_int::{IntType, Model, Order, Scalar, greatest, least};
use ep_intervals::Interval;
use ep_pointers::PtrValue;
use std::alloc::Global;

/// The numbers of cells.
pub type Numbers = Pair<Interval, Congruence>;

/// A byte order.
pub fn order(word: &str) -> Option<Order> {
    match word {
        "little" => Some(Order::Little),
        "big" => Some(Order::Big),
        "swapped-words" => Some(Order::SwappedWords),
        _ => None,
    }
}

/// A data model.
pub fn model(word: &str) -> Option<Model> {
    match word {
        "ilp32" => Some(Model::Ilp32),
        "lp64" => Some(Model::Lp64),
        _ => None,
    }
}

/// A side, or both.
pub fn side(word: &str) -> Option<Side> {
    match word {
        "L" => Some(Side::Left),
        "R" => Some(Side::Right),
        "S" => Some(Side::Shared),
        _ => None,
    }
}

fn int_type(word: &str) -> Option<IntType> {
    match word {
        "i8" => Some(IntType::I8),
        "u8" => Some(IntType::U8),
        "i16" => Some(IntType::I16),
        "u16" => Some(IntType::U16),
        "i32" => Some(IntType::I32),
        "u32" => Some(IntType::U32),
        "i64" => Some(IntType::I64),
        "u64" => Some(IntType::U64),
        _ => None,
    }
}

/// A scalar type.
pub fn scalar(word: &str) -> Option<Scalar> {
    if word == "ptr" {
        Some(Scalar::Pointer)
    } else {
        Some(Scalar::Int(int_type(word)?))
    }
}

/// A mark that is set or not.
pub fn is_set(word: &str) -> Option<bool> {
    match word {
        "yes" => Some(true),
        "no" => Some(false),
        _ => None,
    }
}

fn end(word: &str) -> Option<Interval> {
    let v = word.parse().ok()?;
    if least(IntType::I64) <= v && v <= greatest(IntType::U64) {
        Some(Interval::single(v))
    } else {
        None
    }
}

fn interval(word: &str) -> Option<Interval> {
    let (lo, hi) = word.split_once("..")?;
    Some(end(lo)?.join(&end(hi)?))
}

fn class(word: &str) -> Option<Congruence> {
    let (remainder, modulus) = word.split_once('%')?;
    Congruence::of(remainder.parse().ok()?, modulus.parse().ok()?)
}

fn number(word: &str) -> Option<Numbers> {
    let (left, right) = word.split_once('/')?;
    Pair::of(interval(left)?, class(right)?)
}

fn target(alloc: Global, word: &str) -> Option<PtrValue<Numbers>> {
    if word == "null" {
        return Some(PtrValue::null(alloc));
    }
    let (block, offset) = word.split_once(':')?;
    PtrValue::to(alloc, block.parse().ok()?, number(offset)?).ok()
}

fn with_target(
    value: Option<PtrValue<Numbers>>,
    next: PtrValue<Numbers>,
) -> Option<PtrValue<Numbers>> {
    match value {
        None => Some(next),
        Some(value) => value.join(&next).ok(),
    }
}

fn pointer(alloc: Global, words: &str) -> Option<PtrValue<Numbers>> {
    let mut value = None;
    for word in words.split(';') {
        if !word.is_empty() {
            value = with_target(value, target(alloc, word)?);
        }
    }
    value
}

fn some_value(alloc: Global, word: &str) -> Option<Value<Numbers>> {
    match word.strip_prefix('@') {
        Some(words) => Some(Value::Ptr(pointer(alloc, words)?)),
        None => Some(Value::Num(number(word)?)),
    }
}

fn value(alloc: Global, word: &str) -> Option<Option<Value<Numbers>>> {
    if word == "none" {
        Some(None)
    } else {
        Some(Some(some_value(alloc, word)?))
    }
}

fn sliced(form: &Form, from: u32, to: u32) -> Option<Form> {
    if from < to && to <= form.width() {
        Some(form.slice(from, to))
    } else {
        None
    }
}

fn fixed(bits: u64, width: u32) -> Option<Form> {
    sliced(&Form::constant(IntType::U64, i128::from(bits)), 0, width)
}

fn segment(words: &str) -> Option<Form> {
    let mut words = words.split('.');
    let first = words.next()?;
    if first == "F" {
        return fixed(words.next()?.parse().ok()?, words.next()?.parse().ok()?);
    }
    let name = CellName {
        side: side(first)?,
        block: words.next()?.parse().ok()?,
        offset: words.next()?.parse().ok()?,
        t: int_type(words.next()?)?,
    };
    sliced(
        &Form::of_cell(name),
        words.next()?.parse().ok()?,
        words.next()?.parse().ok()?,
    )
}

fn with_segment(form: Option<Form>, next: Form) -> Option<Form> {
    match form {
        None => Some(next),
        Some(form) => Form::concat(&form, &next),
    }
}

fn some_form(words: &str) -> Option<Form> {
    let mut form = None;
    for word in words.split('+') {
        if !word.is_empty() {
            form = with_segment(form, segment(word)?);
        }
    }
    form
}

fn form(alloc: Global, word: &str) -> Option<Option<BoxedForm>> {
    if word == "-" {
        Some(None)
    } else {
        Some(Some(BoxedForm::new(alloc, some_form(word)?).ok()?))
    }
}

/// A cell of a line.
pub fn cell(alloc: Global, words: &str) -> Option<Cell<Numbers>> {
    let mut words = words.split_whitespace();
    Some(Cell {
        side: side(words.next()?)?,
        block: words.next()?.parse().ok()?,
        offset: words.next()?.parse().ok()?,
        what: scalar(words.next()?)?,
        maybe: is_set(words.next()?)?,
        value: value(alloc, words.next()?)?,
        form: form(alloc, words.next()?)?,
    })
}

/// The side, the block, the offset and the number of bytes.
pub fn place(words: &str) -> Option<ByteRange> {
    let mut words = words.split_whitespace();
    Some(ByteRange {
        side: side(words.next()?)?,
        block: words.next()?.parse().ok()?,
        offset: words.next()?.parse().ok()?,
        bytes: words.next()?.parse().ok()?,
    })
}

/// The cells between commas.
pub fn cells(alloc: Global, words: &str) -> Option<Vec<Cell<Numbers>>> {
    let mut out = Vec::new(alloc);
    for part in words.split(',') {
        if !part.trim().is_empty() {
            out.push(cell(alloc, part)?).ok()?;
        }
    }
    Some(out)
}
