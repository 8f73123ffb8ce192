//! Walks over cells in parts.

ghost use Rattle.std.specs.Prelude.{◌≡◌, ◌<◌, ◌≤◌, ◌↔◌, ◌∷◌, [], IsTrue, length, get_or, IfSome, IfNone};
ghost use Rattle.ep_cells.specs.States.{HaveCellsAlike};
ghost use Rattle.ep_shared_parts.specs.Spread.{all_items};
ghost use Rattle.ep_shared_parts.specs.Walks.{IsAt, IsOn, rest};

use crate::parts::Part;
use ep_cell_rows::places::is_same_cell;
use ep_cells::Cell;
use ep_domain::Num;

/// A place in parts: that of a part and, in it, that of an item or the one behind them.
#[derive(Clone, Copy, Drop)]
pub struct At {
    pub part: usize,
    pub item: usize,
}

fn count<N>(part: &Part<Cell<N>>) -> usize
    ensures { result ≡ length part.now.items.value.items }
{
    part.items.len()
}

fn cell_of<N: Num>(part: &Part<Cell<N>>, i: usize) -> &Cell<N>
    requires { i < length part.now.items.value.items }
    ensures { result.now ≡ get_or part.now.items.value.items i result.now }
{
    &part.items[i]
}

// The place of the next cell, or behind all parts.
fn settled<N: Num>(parts: &[Part<Cell<N>>], at: At) -> At
    requires { IsAt at parts.now }
    ensures on { IsOn result parts.now }
    ensures rest { rest result parts.now ≡ rest at parts.now }
    ensures small { result.part < length parts.now → result.item < 18446744073709551615 }
{
    let mut at = at;
    while at.part < parts.len() && at.item >= count(&parts[at.part]) {
        at = At {
            part: at.part + 1,
            item: 0,
        };
    }
    at
}

/// The next cell, and the place behind it.
pub fn next<N: Num>(parts: &[Part<Cell<N>>], at: At) -> Option<(&Cell<N>, At)>
    requires { IsAt at parts.now }
    ensures some { IfSome result (λ r. (rest at parts.now ≡ r.0.now ∷ rest r.1 parts.now) × IsAt r.1 parts.now) }
    ensures none { IfNone result (rest at parts.now ≡ []) }
{
    let at = settled(parts, at);
    if at.part >= parts.len() {
        return None;
    }
    let behind = At {
        part: at.part,
        item: at.item + 1,
    };
    Some((cell_of(&parts[at.part], at.item), behind))
}

/// Whether both have cells of the same sides, places and types.
pub fn are_alike<N: Num>(xs: &[Part<Cell<N>>], ys: &[Part<Cell<N>>]) -> bool
    ensures { IsTrue result ↔ HaveCellsAlike (all_items xs.now) (all_items ys.now) }
{
    let mut a = At { part: 0, item: 0 };
    let mut b = At { part: 0, item: 0 };
    loop {
        let Some(x) = next(xs, a) else {
            return next(ys, b).is_none();
        };
        let Some(y) = next(ys, b) else {
            return false;
        };
        if !is_same_cell(x.0, y.0) {
            return false;
        }
        a = x.1;
        b = y.1;
    }
}
