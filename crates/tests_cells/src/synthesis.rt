//! Lines of the table on reads, splits and unifications.

use crate::rows::{Setting, state, text};
use ep_bitslice::Side;
use ep_cells::ByteRange;
use ep_state_synthesis::ReadValue;
use ep_states::State;
use std::alloc::{AllocError, Global};
use tests_cell_words::reading::{self, Numbers};
use tests_cell_words::writing::{push_form, push_value, word};

// What is read of a scalar: its value, whether it may be undefined or mixed, and its form.
fn read_value(alloc: Global, r: &ReadValue<Numbers>) -> Result<String, AllocError> {
    let mut out = String::new(alloc);
    push_value(alloc, &mut out, &r.value)?;
    let (maybe, mixed) = (word(r.maybe), word(r.mixed));
    let flags = format!(in alloc; " {maybe} {mixed} ")?;
    out.push_str(flags.as_str())?;
    push_form(alloc, &mut out, &r.form)?;
    Ok(out)
}

/// The side, the block, the offset and the type.
pub(crate) fn read(setting: Setting, arguments: &str, cells: &str) -> Option<String> {
    let mut arguments = arguments.split_whitespace();
    let side = reading::side(arguments.next()?)?;
    let block = arguments.next()?.parse().ok()?;
    let offset = arguments.next()?.parse().ok()?;
    let what = reading::scalar(arguments.next()?)?;
    let state = state(setting, cells)?;
    let r = ep_state_synthesis::read(&state, side, block, offset, what).ok()?;
    read_value(setting.alloc, &r).ok()
}

// A place of one side alone is split.
fn split_at(state: &mut State<Numbers>, p: ByteRange) -> Option<()> {
    match p.side {
        Side::Left => {
            ep_state_synthesis::split(state, Side::Left, p.block, p.offset, p.bytes).ok()
        }
        Side::Right => {
            ep_state_synthesis::split(state, Side::Right, p.block, p.offset, p.bytes).ok()
        }
        Side::Shared => None,
    }
}

/// The side, the block, the offset and the number of bytes.
pub(crate) fn split(setting: Setting, arguments: &str, cells: &str) -> Option<String> {
    let place = reading::place(arguments)?;
    let mut state = state(setting, cells)?;
    split_at(&mut state, place)?;
    text(setting, &state)
}

/// The cells of two states.
pub(crate) fn unify(setting: Setting, cells: &str, others: &str) -> Option<String> {
    let mut first = state(setting, cells)?;
    let mut second = state(setting, others)?;
    ep_state_synthesis::unify(&mut first, &mut second).ok()?;
    let mut out = text(setting, &first)?;
    out.push_str("| ").ok()?;
    let right = text(setting, &second)?;
    out.push_str(right.as_str()).ok()?;
    Some(out)
}
