//! Lines of the table, and what they are answered.

ghost use Rattle.std.specs.Prelude.{◌≡◌, IfSome};

use crate::synthesis::{read, split, unify};
use ep_bitslice::Side;
use ep_cell_changes::check::is_cell;
use ep_cell_changes::entry::are_leaves;
use ep_cells::Cell;
use ep_int::{Model, Order};
use ep_layout::Leaf;
use ep_state_steps::reshare_all;
use ep_states::State;
use std::alloc::Global;
use tests_cell_words::reading::{self, Numbers};
use tests_cell_words::writing;

#[derive(Clone, Copy)]
pub(crate) struct Setting {
    pub(crate) alloc: Global,
    pub(crate) orders: (Order, Order),
    pub(crate) model: Model,
}

pub(crate) fn state(setting: Setting, words: &str) -> Option<State<Numbers>>
    ensures orders { IfSome result (λ s. s.orders ≡ setting.orders) }
    ensures model { IfSome result (λ s. s.model ≡ setting.model) }
{
    let cells = reading::cells(setting.alloc, words)?;
    State::of_cells(setting.alloc, setting.orders, setting.model, cells).ok()?
}

pub(crate) fn text(setting: Setting, state: &State<Numbers>) -> Option<String> {
    let cells = state.cells().ok()?;
    writing::cells(setting.alloc, &cells).ok()
}

fn word(setting: Setting, answer: bool) -> Option<String> {
    String::from_str(setting.alloc, if answer { "yes" } else { "no" }).ok()
}

fn write(setting: Setting, arguments: &str, cells: &str) -> Option<String> {
    let c = reading::cell(setting.alloc, arguments)?;
    let mut state = state(setting, cells)?;
    if !state.can_write(&c).ok()? {
        return None;
    }
    state.write(c).ok()?;
    text(setting, &state)
}

// Shared cells stay only under a Shared cell.
fn weaken_by(state: &mut State<Numbers>, c: &Cell<Numbers>, stays: bool) -> Option<()> {
    if !is_cell(state.model(), c) {
        return None;
    }
    match c.side {
        Side::Left => state.weaken(c, false).ok(),
        Side::Right => state.weaken(c, false).ok(),
        Side::Shared => state.weaken(c, stays).ok(),
    }
}

fn weaken(setting: Setting, arguments: &str, cells: &str) -> Option<String> {
    let (stays, cell) = arguments.trim().split_once(' ')?;
    let c = reading::cell(setting.alloc, cell)?;
    let mut state = state(setting, cells)?;
    weaken_by(&mut state, &c, reading::is_set(stays)?)?;
    text(setting, &state)
}

fn join(setting: Setting, cells: &str, others: &str) -> Option<String> {
    let first = state(setting, cells)?;
    let second = state(setting, others)?;
    if !first.is_like(&second) {
        return None;
    }
    text(setting, &first.join(&second).ok()?)
}

fn widen(setting: Setting, cells: &str, others: &str) -> Option<String> {
    let first = state(setting, cells)?;
    let second = state(setting, others)?;
    if !first.is_like(&second) {
        return None;
    }
    text(setting, &first.widen(&second).ok()?)
}

fn leq(setting: Setting, cells: &str, others: &str) -> Option<String> {
    let first = state(setting, cells)?;
    let second = state(setting, others)?;
    word(setting, first.leq(&second))
}

fn same(setting: Setting, cells: &str, others: &str) -> Option<String> {
    let first = state(setting, cells)?;
    let second = state(setting, others)?;
    word(setting, first.is_same(&second))
}

fn blur(setting: Setting, arguments: &str, cells: &str) -> Option<String> {
    let place = reading::place(arguments)?;
    let mut state = state(setting, cells)?;
    state.blur(place).ok()?;
    text(setting, &state)
}

fn leaf(word: &str) -> Option<Leaf> {
    let (offset, what) = word.split_once(':')?;
    Some(Leaf {
        offset: offset.parse().ok()?,
        what: reading::scalar(what)?,
    })
}

// The side, the block, the size and the leaves.
fn kill(setting: Setting, arguments: &str, cells: &str) -> Option<String> {
    let mut words = arguments.split_whitespace();
    let side = reading::side(words.next()?)?;
    let block = words.next()?.parse().ok()?;
    let size = words.next()?.parse().ok()?;
    let mut leaves = Vec::new(setting.alloc);
    for word in words {
        leaves.push(leaf(word)?).ok()?;
    }
    let mut state = state(setting, cells)?;
    if !are_leaves(state.model(), size, &leaves) {
        return None;
    }
    state.kill_block(side, block, &leaves, size).ok()?;
    text(setting, &state)
}

fn reshare(setting: Setting, cells: &str) -> Option<String> {
    let state = state(setting, cells)?;
    let after = reshare_all(state).ok()?;
    text(setting, &after)
}

// The side, the block and the byte.
fn cell_at(setting: Setting, arguments: &str, cells: &str) -> Option<String> {
    let mut words = arguments.split_whitespace();
    let side = reading::side(words.next()?)?;
    let block = words.next()?.parse().ok()?;
    let byte = words.next()?.parse().ok()?;
    let state = state(setting, cells)?;
    let mut out = String::new(setting.alloc);
    match state.cell_at(side, block, byte) {
        None => out.push_str("none").ok()?,
        Some(c) => writing::push_cell(setting.alloc, &mut out, c).ok()?,
    }
    Some(out)
}

fn partly(setting: Setting, arguments: &str, cells: &str) -> Option<String> {
    let place = reading::place(arguments)?;
    let state = state(setting, cells)?;
    word(setting, state.partly(&place))
}

/// What a line is answered. None where it is none of the table's.
pub(crate) fn answer(alloc: Global, line: &str) -> Option<String> {
    let mut fields = line.split('|');
    let mut head = fields.next()?.split_whitespace();
    let operation = head.next()?;
    let setting = Setting {
        alloc,
        orders: (reading::order(head.next()?)?, reading::order(head.next()?)?),
        model: reading::model(head.next()?)?,
    };
    let arguments = fields.next()?;
    let cells = fields.next()?;
    let others = fields.next()?;
    match operation {
        "write" => write(setting, arguments, cells),
        "weaken" => weaken(setting, arguments, cells),
        "join" => join(setting, cells, others),
        "widen" => widen(setting, cells, others),
        "leq" => leq(setting, cells, others),
        "same" => same(setting, cells, others),
        "blur" => blur(setting, arguments, cells),
        "kill" => kill(setting, arguments, cells),
        "reshare" => reshare(setting, cells),
        "cell_at" => cell_at(setting, arguments, cells),
        "partly" => partly(setting, arguments, cells),
        "read" => read(setting, arguments, cells),
        "split" => split(setting, arguments, cells),
        "unify" => unify(setting, cells, others),
        _ => None,
    }
}
