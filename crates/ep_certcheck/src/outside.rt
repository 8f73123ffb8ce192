//! Where one state is outside another.

ghost use Rattle.std.specs.Prelude.{◌≡◌, ◌&&◌, IfOk, map};
ghost use Rattle.ep_cells.specs.Cells as cells;
ghost use Rattle.ep_cells.specs.Both as both;
ghost use Rattle.ep_certcheck.specs.Verdict.{has_within, first_failed, first_failed_cell};

use ep_cell_rows::places::is_same_cell;
use ep_cell_rows::rows::is_cell_within;
use ep_cells::Cell;
use ep_domain::Num;
use ep_int::Memory;
use ep_states::State;

fn is_within<N: Num>(x: &Cell<N>, y: &Cell<N>) -> bool
    ensures { result ≡ (cells.is_same_cell x.now y.now && both.is_cell_within N.ops x.now y.now) }
{
    is_same_cell(x, y) && is_cell_within(x, y)
}

// Whether the state has the cell of this side, place and type, within this one. No two cells of a side begin at one
// offset.
fn has_within<N: Num>(state: &State<N>, y: &Cell<N>) -> bool
    ensures { result ≡ has_within N.ops state.now.cells y.now }
{
    state.model();
    match state.cell_from(y.side, y.block, y.offset) {
        None => false,
        Some(x) => is_within(x, y),
    }
}

// The number of the first of these cells that the state fails.
fn first_failed<N: Num>(state: &State<N>, cells: &[&Cell<N>]) -> usize
    ensures { result ≡ first_failed_cell N.ops state.now.cells (map (λ r. r.now) cells.now) }
{
    let mut n = 0;
    for y in cells {
        if !has_within(state, *y) {
            return n;
        }
        n += 1;
    }
    n
}

/// The number of the second's first cell that the first fails, or how many cells the second has.
pub(crate) fn first_outside<N: Num>(state: &State<N>, head: &State<N>) -> Result<u64, Memory>
    ensures { IfOk result (λ n. n ≡ first_failed N.ops state.now head.now) }
{
    let cells = head.all()?;
    Ok(first_failed(state, &cells) as u64)
}
