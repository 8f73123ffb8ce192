//! Long arrays, and deep tests.

use crate::answers::{test, value};
use crate::trees::tree;
use ep_bitslice::Side;
use ep_cells::{Cell, Value};
use ep_domain::Num;
use ep_equalities::Mode;
use ep_int::{IntType, Model, Order, Scalar};
use ep_states::State;
use std::alloc::Global;
use tests_cell_words::reading::Numbers;

fn cell(block: u32, offset: u32, n: Numbers) -> Cell<Numbers> {
    Cell {
        side: Side::Shared,
        block,
        offset,
        what: Scalar::Int(IntType::U32),
        value: Some(Value::Num(n)),
        maybe: false,
        form: None,
    }
}

fn below(n: u32) -> Numbers {
    Numbers::single(0).join(&Numbers::single(i128::from(n.saturating_sub(1))))
}

// Block 0 has so many numbers, and block 1 an index of them.
fn state(alloc: Global, n: u32) -> Option<State<Numbers>> {
    let mut cells = Vec::new(alloc);
    for i in 0..n {
        cells
            .push(cell(0, i.saturating_mul(4), Numbers::single(i128::from(i))))
            .ok()?;
    }
    cells.push(cell(1, 0, below(n))).ok()?;
    State::of_cells(alloc, (Order::Little, Order::Big), Model::Ilp32, cells).ok()?
}

fn last(
    alloc: Global,
    sizes: &[u32],
    state: &State<Numbers>,
    words: &str,
    times: u32,
) -> Option<String> {
    let e = tree(alloc, words)?;
    let mut text = None;
    for _i in 0..times {
        text = Some(value(alloc, sizes, state, &e, Mode::Both, true)?);
    }
    text
}

/// What is read of an array of so many numbers, so many times: at all its indices, or at one.
pub(crate) fn array(alloc: Global, n: u32, times: u32, all: bool) -> Option<String> {
    let state = state(alloc, n)?;
    let mut sizes = Vec::new(alloc);
    sizes.push(n.saturating_mul(4)).ok()?;
    sizes.push(4).ok()?;
    let words = if all {
        format!(in alloc; "b.0 b.1 ld.u32 el.{n}.4 ld.u32").ok()?
    } else {
        String::from_str(alloc, "b.0 c.i32.5 el.8.4 ld.u32").ok()?
    };
    last(alloc, &sizes, &state, words.as_str(), times)
}

fn part(words: &str, i: u32) -> Option<&str> {
    let mut last = None;
    for part in words.split(',') {
        if !part.is_empty() {
            last = Some(part);
        }
    }
    let mut at = 0u32;
    for part in words.split(',') {
        if at == i {
            return Some(part);
        }
        at = at.saturating_add(1);
    }
    last
}

/// A test of so many levels, whose words are between commas: the first one's, and those that each level adds, in turn.
pub(crate) fn nested(alloc: Global, words: &str, depth: u32) -> Option<String> {
    let state = state(alloc, 8)?;
    let mut sizes = Vec::new(alloc);
    sizes.push(32).ok()?;
    sizes.push(4).ok()?;
    let mut text = String::new(alloc);
    push_words(&mut text, part(words, 0)?)?;
    for i in 0..depth {
        push_words(&mut text, part(words, (i % 4).saturating_add(1))?)?;
    }
    let e = tree(alloc, text.as_str())?;
    test(alloc, &sizes, &state, &e, Mode::Both)
}

// Words of one level stand between semicolons.
fn push_words(text: &mut String, words: &str) -> Option<()> {
    for word in words.split(';') {
        text.push_str(word).ok()?;
        text.push_str(" ").ok()?;
    }
    Some(())
}
