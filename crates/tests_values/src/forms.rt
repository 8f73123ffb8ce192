//! Forms, written as their segments.

use ep_bitslice::{CellName, Form, Segment, Side};
use ep_int::IntType;

// The type of a cell x, terms that are joined by `or`, and the segments of the result, the lowest first. A term is x
// with what is done to it in turn: shifts `<` and `>`, a mask `&`, an extension to so many bits `e`, a truncation `t`,
// a slice `s`, x put above it `a` and below it `b`, another cell y put above it `y`, and y named x `n`. A segment is a
// run of bits of x or y, or a number and how many bits it has.
const FORMS: &str = "\
u32 = x0-32
u16 e32 >8 | e32 <8 = x8-16 x0-16 0/8
u16 e32 >8 t16 | e32 <8 t16 = x8-16 x0-8
u32 >24 | >8 &65280 | <8 &16711680 | <24 = x24-32 x16-24 x8-16 x0-8
u64 >56 | >40 &65280 | >24 &16711680 | >8 &4278190080 | <8 &1095216660480 | <24 &280375465082880 | <40 &71776119061217280 | <56 = x56-64 x48-56 x40-48 x32-40 x24-32 x16-24 x8-16 x0-8
u32 >16 | <16 = x16-32 x0-16
u32 >16 | <15 = none
u32 >16 | >16 = none
u32 >16 | e64 = none
u64 &71777214294589695 = x0-8 0/8 x16-24 0/8 x32-40 0/8 x48-56 0/8
u64 &9295149251149365503 = none
u64 &6148914691236517205 = none
u8 &0 = 0/8
u8 &255 = x0-8
u8 &511 = x0-8
u8 &90 = 0/1 x1-2 0/1 x3-5 0/1 x6-7 0/1
i8 e64 = x0-8 0/56
u8 e64 <56 = 0/56 x0-8
u8 e64 <63 >63 = x0-1 0/63
u64 e64 = x0-64
u32 t8 = x0-8
u32 s8-24 = x8-24
u32 &65280 s4-20 = 0/4 x8-16 0/4
u8 a a = x0-8 x0-8 x0-8
u8 a a a a a a a = x0-8 x0-8 x0-8 x0-8 x0-8 x0-8 x0-8 x0-8
u8 a a a a a a t49 y = x0-8 x0-8 x0-8 x0-8 x0-8 x0-8 x0-1 y0-8
u8 a a a a a a t49 e50 y = none
u32 a = x0-32 x0-32
u32 a a = none
u64 a = none
u16 t8 b = x0-16 x0-8
u16 s8-16 b s8-24 = x8-16 x8-16
u16 y = x0-16 y0-16
u16 y n = x0-16 x0-16
u32 s8-16 y s0-16 n s0-12 = x8-16 x0-4
u32 t8 y s0-40 n s4-16 = x4-8 x0-8
";

// A constant and its bits, in two's complement.
const CONSTANTS: &str = "\
i8 -1 255/8
i8 -128 128/8
u8 255 255/8
i16 -2 65534/16
u16 258 258/16
i32 -2147483648 2147483648/32
u32 4294967295 4294967295/32
i64 -1 18446744073709551615/64
u64 18446744073709551615 18446744073709551615/64
i64 5 5/64
";

const NAMED_X: (u32, u32) = (0, 0);

const NAMED_Y: (u32, u32) = (0, 8);

fn cell(place: (u32, u32), t: IntType) -> CellName {
    CellName {
        side: Side::Shared,
        block: place.0,
        offset: place.1,
        t,
    }
}

fn int_type(word: &str) -> Option<IntType> {
    match word {
        "i8" => Some(IntType::I8),
        "u8" => Some(IntType::U8),
        "i16" => Some(IntType::I16),
        "u16" => Some(IntType::U16),
        "i32" => Some(IntType::I32),
        "u32" => Some(IntType::U32),
        "i64" => Some(IntType::I64),
        "u64" => Some(IntType::U64),
        _ => None,
    }
}

fn ends(word: &str) -> Option<(u32, u32)> {
    let (low, high) = word.split_once('-')?;
    Some((low.parse().ok()?, high.parse().ok()?))
}

fn shifted(form: &Form, amount: u32, is_left: bool) -> Option<Form> {
    if amount >= form.width() {
        None
    } else if is_left {
        form.shl(amount)
    } else {
        form.shr(amount)
    }
}

fn sliced(form: &Form, from: u32, to: u32) -> Option<Form> {
    if from < to && to <= form.width() {
        Some(form.slice(from, to))
    } else {
        None
    }
}

fn truncated(form: &Form, bits: u32) -> Option<Form> {
    if 0 < bits && bits <= form.width() {
        Some(form.truncate(bits))
    } else {
        None
    }
}

fn extended(form: &Form, bits: u32) -> Option<Form> {
    if form.width() <= bits && bits <= 64 {
        form.extend(bits)
    } else {
        None
    }
}

fn step(form: &Form, word: &str, t: IntType) -> Option<Form> {
    let x = cell(NAMED_X, t);
    let y = cell(NAMED_Y, t);
    match word {
        "a" => Form::concat(form, &Form::of_cell(x)),
        "b" => Form::concat(&Form::of_cell(x), form),
        "y" => Form::concat(form, &Form::of_cell(y)),
        "n" => Some(form.rename(&y, &x)),
        _ => numbered_step(form, word),
    }
}

fn numbered_step(form: &Form, word: &str) -> Option<Form> {
    if let Some(amount) = word.strip_prefix('<') {
        return shifted(form, amount.parse().ok()?, true);
    }
    if let Some(amount) = word.strip_prefix('>') {
        return shifted(form, amount.parse().ok()?, false);
    }
    if let Some(mask) = word.strip_prefix('&') {
        return form.mask(mask.parse().ok()?);
    }
    if let Some(bits) = word.strip_prefix('e') {
        return extended(form, bits.parse().ok()?);
    }
    if let Some(bits) = word.strip_prefix('t') {
        return truncated(form, bits.parse().ok()?);
    }
    let (from, to) = ends(word.strip_prefix('s')?)?;
    sliced(form, from, to)
}

fn term(words: &str, t: IntType) -> Option<Form> {
    let mut form = Form::of_cell(cell(NAMED_X, t));
    for word in words.split_whitespace() {
        form = step(&form, word, t)?;
    }
    Some(form)
}

fn computed(words: &str, t: IntType) -> Option<Form> {
    let mut terms = words.split('|');
    let mut form = term(terms.next()?, t)?;
    for words in terms {
        form = Form::disjoint_or(&form, &term(words, t)?)?;
    }
    Some(form)
}

fn run_of(place: (u32, u32), t: IntType, word: &str) -> Option<Segment> {
    let (low, high) = ends(word)?;
    Some(Segment::Bits(
        cell(place, t),
        u8::try_from(low).ok()?,
        u8::try_from(high).ok()?,
    ))
}

fn segment(word: &str, t: IntType) -> Option<Segment> {
    if let Some(run) = word.strip_prefix('x') {
        return run_of(NAMED_X, t, run);
    }
    if let Some(run) = word.strip_prefix('y') {
        return run_of(NAMED_Y, t, run);
    }
    let (value, width) = word.split_once('/')?;
    Some(Segment::Fixed(value.parse().ok()?, width.parse().ok()?))
}

fn has_segments(form: &Form, words: &str, t: IntType) -> bool {
    let mut left = form.segments();
    for word in words.split_whitespace() {
        let Some((first, rest)) = left.split_first() else {
            return false;
        };
        if segment(word, t) != Some(*first) {
            return false;
        }
        left = rest;
    }
    left.is_empty()
}

fn gives_form(line: &str) -> Option<bool> {
    let (left, right) = line.split_once(" = ")?;
    let (name, words) = left.split_once(' ').unwrap_or((left, ""));
    let t = int_type(name)?;
    Some(match computed(words, t) {
        Some(form) => has_segments(&form, right, t) && form.is_same(&form.copy()),
        None => right == "none",
    })
}

#[test]
fn calls_give_the_table(rt: HostRuntime) {
    for line in FORMS.lines() {
        assert_eq!(rt; gives_form(line), Some(true), "{line}");
    }
}

fn gives_constant(line: &str) -> Option<bool> {
    let mut words = line.split_whitespace();
    let t = int_type(words.next()?)?;
    let value: i128 = words.next()?.parse().ok()?;
    if !ep_int::in_range(t, value) {
        return None;
    }
    let form = Form::constant(t, value);
    Some(has_segments(&form, words.next()?, t))
}

#[test]
fn constants_give_the_table(rt: HostRuntime) {
    for line in CONSTANTS.lines() {
        assert_eq!(rt; gives_constant(line), Some(true), "{line}");
    }
}

#[test]
fn cells_are_mentioned(rt: HostRuntime) {
    let x = cell(NAMED_X, IntType::U8);
    let y = cell(NAMED_Y, IntType::U8);
    let form = Form::of_cell(x);
    assert_eq!(rt; form.mentions(&x), true);
    assert_eq!(rt; form.mentions(&y), false);
    assert_eq!(rt; form.rename(&x, &y).mentions(&y), true);
    assert_eq!(rt; form.is_same(&Form::of_cell(y)), false);
}
