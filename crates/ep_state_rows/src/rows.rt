//! Rows of cells that may be written.

ghost use Rattle.std.specs.Prelude.{◌≡◌, ◌+◌, ◌^◌, ◌<◌, ◌∷◌, [], IfOk};
ghost use Rattle.ep_bitslice.specs.declared.cell.Side.TheVariants.{Shared};
ghost use Rattle.ep_cells.specs.States.{Each, IsCell};
ghost use Rattle.ep_state_rows.specs.Rows.{further, each_weakened, IsRow, row_bytes, FitAt, AreSpaced};

use crate::facing::found_row;
use ep_bicells::changes::Step;
use ep_cell_rows::values::{copy_boxed, copy_value};
use ep_cells::{Cell, weak_write_laws};
use ep_domain::Num;
use ep_int::Memory;
use ep_states::State;

type Spot = (u32, u32);

fn further<N: Num>(c: &Cell<N>, q: Spot) -> Result<Cell<N>, Memory>
    requires { q.1 + c.now.offset < 2 ^ 32 }
    ensures { IfOk result (λ x. x ≡ further c.now q) }
{
    Ok(Cell {
        side: c.side,
        block: q.0,
        offset: q.1 + c.offset,
        what: c.what,
        value: copy_value(&c.value)?,
        maybe: c.maybe,
        form: copy_boxed(&c.form)?,
    })
}

fn weaken_one<N: Num>(state: State<N>, c: &Cell<N>, q: Spot) -> Result<State<N>, Memory>
    requires side { c.now.side ≡ Shared }
    requires fits { IsCell state.model (further c.now q) }
    ensures { IfOk result (λ s. s ≡ each_weakened N.ops (q ∷ []) (c.now ∷ []) state) }
{
    let x = further(c, q)?;
    let next = state.weakened(&x, true)?;
    Ok(next)
}

fn weaken_in_turn<N: Num>(
    state: State<N>,
    start: u32,
    cells: &[Cell<N>],
    q: Spot,
) -> Result<State<N>, Memory>
    requires row { IsRow state.model start cells.now }
    requires fits { Each (λ c. IsCell state.model (further c q)) cells.now }
    ensures { IfOk result (λ s. s ≡ each_weakened N.ops (q ∷ []) cells.now state) }
{
    let mut sofar = state;
    for c in cells {
        let next = weaken_one(sofar, c, q)?;
        sofar = next;
    }
    Ok(sofar)
}

// At one place.
fn weaken_row<N: Num>(
    state: State<N>,
    start: u32,
    bytes: u32,
    cells: &[Cell<N>],
    q: Spot,
) -> Result<State<N>, Memory>
    requires row { IsRow state.model start cells.now }
    requires bytes { bytes ≡ row_bytes state.model cells.now }
    requires fits { Each (λ c. IsCell state.model (further c q)) cells.now }
    ensures { IfOk result (λ s. s ≡ each_weakened N.ops (q ∷ []) cells.now state) }
{
    weak_write_laws::<N>();
    state.model();
    if bytes == 0 {
        return Ok(state);
    }
    match found_row(&state, start, bytes, cells, q)? {
        None => {
            let after = weaken_in_turn(state, start, cells, q)?;
            Ok(after)
        }
        Some(row) => {
            let after = state.after(&Step::Write(row.place), row.new)?;
            Ok(after)
        }
    }
}

/// Shared cells without forms, each behind the one before it and so far behind a place as its offset says, may be
/// written at each of several places, which lie as far from each other. `start` is the offset of the first one, `bytes`
/// how many they all have. Costs for each place a look at the cells there, and one write of them all where each stands
/// just where one of the row does; else a weak write for each.
pub fn weaken_rows<N: Num>(
    state: State<N>,
    start: u32,
    bytes: u32,
    cells: &[Cell<N>],
    spots: &[(u32, u32)],
) -> Result<State<N>, Memory>
    requires row { IsRow state.model start cells.now }
    requires bytes { bytes ≡ row_bytes state.model cells.now }
    requires fits { FitAt state.model cells.now spots.now }
    requires spaced { AreSpaced (start + bytes) spots.now }
    ensures value { IfOk result (λ s. s ≡ each_weakened N.ops spots.now cells.now state) }
    ensures model { IfOk result (λ s. s.model ≡ state.model) }
{
    let mut sofar = state;
    for q in spots {
        let next = weaken_row(sofar, start, bytes, cells, *q)?;
        sofar = next;
    }
    Ok(sofar)
}
