//! Several places that may be written.

ghost use Rattle.std.specs.Prelude.{◌≡◌, true, map, IfOk, IfSome};
ghost use Rattle.ep_cells.specs.Cells.{place_of as the_place};
ghost use Rattle.ep_cells.specs.Forms.{form_after};
ghost use Rattle.ep_cells.specs.States.{Fits};
ghost use Rattle.ep_cells.specs.Weaken.{weakened, fate_by_weak_write};
ghost use Rattle.ep_cell_ranges.specs.Moves.{place_at, weakened_each, form_by_weak_each, blurred_each};
ghost use Rattle.ep_cell_ranges.specs.Ranges.{with_cells, blurred_at};
ghost use Rattle.ep_state_ranges.specs.HeldForms.{at_spot, FitsAtEach, form_by_blur_each};
ghost use Rattle.ep_state_ranges.specs.InRow.{Faces};

use crate::facing::{RowWrite, found_row};
use crate::forms::{Held, changed};
use ep_bicells::changes::Step;
use ep_bitslice::Side;
use ep_cell_ranges::weak_each_laws;
use ep_cell_rows::change::Change;
use ep_cell_rows::places::place_of;
use ep_cell_rows::values::{copy_boxed, copy_value, rises};
use ep_cells::{ByteRange, Cell};
use ep_domain::Num;
use ep_int::Memory;
use ep_states::State;

type Spot = (u32, u32);

/// What is known, and forms that are held meanwhile.
#[derive(Drop)]
pub struct Underway<N> {
    pub state: State<N>,
    pub forms: Held,
}

// ---- a cell

fn at_spot<N: Num>(c: &Cell<N>, q: Spot) -> Result<Cell<N>, Memory>
    ensures { IfOk result (λ x. x ≡ at_spot c.now q) }
{
    Ok(Cell {
        side: c.side,
        block: q.0,
        offset: q.1,
        what: c.what,
        value: copy_value(&c.value)?,
        maybe: c.maybe,
        form: copy_boxed(&c.form)?,
    })
}

fn weaken_at<N: Num>(
    now: Underway<N>,
    c: &Cell<N>,
    shared_stays: bool,
    q: Spot,
) -> Result<Underway<N>, Memory>
    requires fits { Fits now.state.model (at_spot c.now q) }
    requires stays { shared_stays ≡ true → c.now.side ≡ Side.Shared }
    ensures state { IfOk result (λ r. r.state ≡ with_cells now.state
        (weakened N.ops now.state.model (at_spot c.now q) shared_stays now.state.cells)) }
    ensures forms { IfOk result (λ r. r.forms.items
        ≡ map (form_after (fate_by_weak_write (the_place now.state.model (at_spot c.now q)))) now.forms.items) }
{
    let y = at_spot(c, q)?;
    let place = place_of(now.state.model(), &y);
    let forms = changed(now.state.allocator(), Change::WeakWrite(place), now.forms)?;
    let state = now.state.weakened(&y, shared_stays)?;
    Ok(Underway { state, forms })
}

fn weaken_at_each<N: Num>(
    now: Underway<N>,
    c: &Cell<N>,
    shared_stays: bool,
    spots: &[Spot],
) -> Result<Underway<N>, Memory>
    requires fits { FitsAtEach now.state.model c.now spots.now }
    requires stays { shared_stays ≡ true → c.now.side ≡ Side.Shared }
    ensures state { IfOk result (λ r. r.state
        ≡ weakened_each N.ops (at_spot c.now) shared_stays spots.now now.state) }
    ensures forms { IfOk result (λ r. r.forms.items
        ≡ map (form_by_weak_each now.state.model (at_spot c.now) spots.now) now.forms.items) }
{
    let mut sofar = now;
    for q in spots {
        let next = weaken_at(sofar, c, shared_stays, *q)?;
        sofar = next;
    }
    Ok(sofar)
}

// The whole row is written with what may stand there now.
fn weaken_row<N: Num>(
    now: Underway<N>,
    c: &Cell<N>,
    shared_stays: bool,
    spots: &[Spot],
    row: RowWrite<N>,
) -> Result<Underway<N>, Memory>
    requires fits { FitsAtEach now.state.model c.now spots.now }
    requires stays { shared_stays ≡ true }
    requires row { Faces N.ops now.state c.now spots.now row.place row.new.items }
    ensures state { IfOk result (λ r. r.state
        ≡ weakened_each N.ops (at_spot c.now) shared_stays spots.now now.state) }
    ensures forms { IfOk result (λ r. r.forms.items
        ≡ map (form_by_weak_each now.state.model (at_spot c.now) spots.now) now.forms.items) }
{
    weak_each_laws::<N>();
    rises(&c.value);
    now.state.model();
    let forms = changed(
        now.state.allocator(),
        Change::WeakWrite(row.place),
        now.forms,
    )?;
    let state = now.state.after(&Step::Write(row.place), row.new)?;
    Ok(Underway { state, forms })
}

fn row_of<N: Num>(
    state: &State<N>,
    c: &Cell<N>,
    shared_stays: bool,
    spots: &[Spot],
) -> Result<Option<RowWrite<N>>, Memory>
    requires { shared_stays ≡ true → c.now.side ≡ Side.Shared }
    ensures row { IfOk result (λ o. IfSome o (λ r. Faces N.ops state.now c.now spots.now r.place r.new.items)) }
    ensures stays { IfOk result (λ o. IfSome o (λ _. shared_stays ≡ true)) }
{
    if shared_stays {
        let found = found_row(state, c, spots)?;
        return Ok(found);
    }
    Ok(None)
}

/// A cell may be written at each of several places, given by block and offset, whatever its own; forms that are held go
/// along. `shared_stays` where both memories have it written or neither. Costs a weak write for each place; but where
/// Shared cells stay, the places lie next to each other in their order and no cells but such of just these places stand
/// there, a look at them and one write of them all.
pub fn weaken_each<N: Num>(
    state: State<N>,
    c: &Cell<N>,
    shared_stays: bool,
    spots: &[(u32, u32)],
    held: Held,
) -> Result<(State<N>, Held), Memory>
    requires fits { FitsAtEach state.model c.now spots.now }
    requires stays { shared_stays ≡ true → c.now.side ≡ Side.Shared }
    ensures state { IfOk result (λ r. r.0 ≡ weakened_each N.ops (at_spot c.now) shared_stays spots.now state) }
    ensures held { IfOk result (λ r. r.1.items
        ≡ map (form_by_weak_each state.model (at_spot c.now) spots.now) held.items) }
{
    let row = row_of(&state, c, shared_stays, spots)?;
    let now = Underway { state, forms: held };
    match row {
        None => {
            let after = weaken_at_each(now, c, shared_stays, spots)?;
            Ok((after.state, after.forms))
        }
        Some(row) => {
            let after = weaken_row(now, c, shared_stays, spots, row)?;
            Ok((after.state, after.forms))
        }
    }
}

// ---- whatever

fn blur_at<N: Num>(now: Underway<N>, side: Side, bytes: u32, q: Spot) -> Result<Underway<N>, Memory>
    ensures state { IfOk result (λ r. r.state ≡ blurred_at N.ops (place_at side q bytes) now.state) }
    ensures forms { IfOk result (λ r. r.forms.items
        ≡ map (form_after (fate_by_weak_write (place_at side q bytes))) now.forms.items) }
{
    let place = ByteRange {
        side,
        block: q.0,
        offset: q.1,
        bytes,
    };
    let forms = changed(now.state.allocator(), Change::WeakWrite(place), now.forms)?;
    let state = now.state.blurred(place)?;
    Ok(Underway { state, forms })
}

fn blur_at_each<N: Num>(
    now: Underway<N>,
    side: Side,
    bytes: u32,
    spots: &[Spot],
) -> Result<Underway<N>, Memory>
    ensures state { IfOk result (λ r. r.state ≡ blurred_each N.ops side bytes spots.now now.state) }
    ensures forms { IfOk result (λ r. r.forms.items
        ≡ map (form_by_blur_each side bytes spots.now) now.forms.items) }
{
    let mut sofar = now;
    for q in spots {
        let next = blur_at(sofar, side, bytes, *q)?;
        sofar = next;
    }
    Ok(sofar)
}

/// So many bytes from each of several places on, given by block and offset, may have been written in whatever way;
/// forms that are held go along. Costs the parts with cells that touch the places or mention such.
pub fn blur_each<N: Num>(
    state: State<N>,
    side: Side,
    bytes: u32,
    spots: &[(u32, u32)],
    held: Held,
) -> Result<(State<N>, Held), Memory>
    ensures state { IfOk result (λ r. r.0 ≡ blurred_each N.ops side bytes spots.now state) }
    ensures held { IfOk result (λ r. r.1.items ≡ map (form_by_blur_each side bytes spots.now) held.items) }
{
    let now = Underway { state, forms: held };
    let after = blur_at_each(now, side, bytes, spots)?;
    Ok((after.state, after.forms))
}
