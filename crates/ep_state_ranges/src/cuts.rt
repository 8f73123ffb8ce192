//! Places that get new cells, where cells that lie partly in them are split first.

ghost use Rattle.std.specs.Prelude.{◌≡◌, false, map, IfOk};
ghost use Rattle.ep_cells.specs.Cells.{IsIn, is_same_side};
ghost use Rattle.ep_cells.specs.Forms.{form_after};
ghost use Rattle.ep_cells.specs.States.{Each};
ghost use Rattle.ep_cell_ranges.specs.Ranges.{with_form, form_by_like, form_by_splits, form_by_split, form_by_cut};
ghost use Rattle.ep_cell_ranges.specs.Ranges.{form_by_replace, split_at, cut, replaced};
ghost use Rattle.ep_cell_ranges.specs.Sound.{AreNew};
ghost use Rattle.ep_reads.specs.Split.{fate_by_split, split_cell, split_like};
ghost use Rattle.ep_state_steps.specs.Ones.{split_at as split_each, Has};

use crate::forms::{Held, all_by_step, cells_by_step, changed};
use ep_bicells::changes::Step;
use ep_bitslice::Side;
use ep_cell_ranges::replace_laws;
use ep_cell_rows::change::Change;
use ep_cells::{ByteRange, Cell};
use ep_domain::Num;
use ep_int::Memory;
use ep_state_looks::looking::{cut as cut_cells, like};
use ep_state_steps::machines_of;
use ep_states::State;
use ep_synthesis::split::split_parts;

/// What is known, and what goes along while cells are split: cells that aren't yet of the state, and forms.
#[derive(Drop)]
pub struct Cutting<N> {
    pub state: State<N>,
    pub new: Vec<Cell<N>>,
    pub forms: Held,
}

fn split_one<N: Num>(now: Cutting<N>, side: Side, y: Cell<N>) -> Result<Cutting<N>, Memory>
    requires one { is_same_side side Side.Shared ≡ false }
    requires has { Has side y }
    requires there { IsIn y now.state.cells }
    ensures state { IfOk result (λ r. r.state
        ≡ record now.state { cells = split_cell N.ops now.state side y now.state.cells }) }
    ensures new { IfOk result (λ r. r.new.items ≡ map (with_form (form_after (fate_by_split side y))) now.new.items) }
    ensures forms { IfOk result (λ r. r.forms.items ≡ map (form_after (fate_by_split side y)) now.forms.items) }
{
    let model = now.state.model();
    let alloc = now.state.allocator();
    let parts = split_parts(alloc, machines_of(&now.state), side, &y)?;
    let step = Step::Split(side, y);
    let new = cells_by_step(alloc, model, &step, now.new)?;
    let forms = all_by_step(alloc, model, &step, now.forms)?;
    let state = now.state.after(&step, parts)?;
    Ok(Cutting { state, new, forms })
}

fn split_like<N: Num>(now: Cutting<N>, side: Side, x: &Cell<N>) -> Result<Cutting<N>, Memory>
    requires one { is_same_side side Side.Shared ≡ false }
    requires has { Has side x.now }
    ensures state { IfOk result (λ r. r.state
        ≡ record now.state { cells = split_like N.ops now.state side x.now now.state.cells }) }
    ensures new { IfOk result (λ r. r.new.items
        ≡ map (with_form (form_by_like N.ops side x.now now.state.cells)) now.new.items) }
    ensures forms { IfOk result (λ r. r.forms.items
        ≡ map (form_by_like N.ops side x.now now.state.cells) now.forms.items) }
{
    match like(&now.state, x)? {
        None => Ok(now),
        Some(y) => {
            let after = split_one(now, side, y)?;
            Ok(after)
        }
    }
}

fn split_each<N: Num>(now: Cutting<N>, side: Side, xs: &[Cell<N>]) -> Result<Cutting<N>, Memory>
    requires one { is_same_side side Side.Shared ≡ false }
    requires have { Each (Has side) xs.now }
    ensures state { IfOk result (λ r. r.state ≡ split_each N.ops side xs.now now.state) }
    ensures new { IfOk result (λ r. r.new.items
        ≡ map (with_form (form_by_splits N.ops now.state side xs.now now.state.cells)) now.new.items) }
    ensures forms { IfOk result (λ r. r.forms.items
        ≡ map (form_by_splits N.ops now.state side xs.now now.state.cells) now.forms.items) }
{
    let mut sofar = now;
    for x in xs {
        let next = split_like(sofar, side, x)?;
        sofar = next;
    }
    Ok(sofar)
}

fn split_on<N: Num>(now: Cutting<N>, p: &ByteRange) -> Result<Cutting<N>, Memory>
    requires { is_same_side p.now.side Side.Shared ≡ false }
    ensures state { IfOk result (λ r. r.state ≡ split_at N.ops p.now now.state) }
    ensures new { IfOk result (λ r. r.new.items
        ≡ map (with_form (form_by_split N.ops p.now now.state)) now.new.items) }
    ensures forms { IfOk result (λ r. r.forms.items ≡ map (form_by_split N.ops p.now now.state) now.forms.items) }
{
    if !now.state.partly(p) {
        return Ok(now);
    }
    let xs = cut_cells(&now.state, p)?;
    let after = split_each(now, p.side, &xs)?;
    Ok(after)
}

fn on_side(p: &ByteRange, side: Side) -> ByteRange
    ensures { result ≡ record p.now { side = side } }
{
    ByteRange {
        side,
        block: p.block,
        offset: p.offset,
        bytes: p.bytes,
    }
}

// The left first.
fn cut_both<N: Num>(now: Cutting<N>, p: &ByteRange) -> Result<Cutting<N>, Memory>
    ensures state { IfOk result (λ r. r.state ≡ cut N.ops (record p.now { side = Side.Shared }) now.state) }
    ensures new { IfOk result (λ r. r.new.items
        ≡ map (with_form (form_by_cut N.ops (record p.now { side = Side.Shared }) now.state)) now.new.items) }
    ensures forms { IfOk result (λ r. r.forms.items
        ≡ map (form_by_cut N.ops (record p.now { side = Side.Shared }) now.state) now.forms.items) }
{
    let left = split_on(now, &on_side(p, Side::Left))?;
    let both = split_on(left, &on_side(p, Side::Right))?;
    Ok(both)
}

fn cut_all<N: Num>(now: Cutting<N>, p: &ByteRange) -> Result<Cutting<N>, Memory>
    ensures state { IfOk result (λ r. r.state ≡ cut N.ops p.now now.state) }
    ensures new { IfOk result (λ r. r.new.items ≡ map (with_form (form_by_cut N.ops p.now now.state)) now.new.items) }
    ensures forms { IfOk result (λ r. r.forms.items ≡ map (form_by_cut N.ops p.now now.state) now.forms.items) }
{
    match p.side {
        Side::Left => {
            let after = split_on(now, p)?;
            Ok(after)
        }
        Side::Right => {
            let after = split_on(now, p)?;
            Ok(after)
        }
        Side::Shared => {
            let after = cut_both(now, p)?;
            Ok(after)
        }
    }
}

/// Cells that lie partly in a place are split on its sides, and forms that are held go along. Costs a look at the cells
/// by the place, and for each cell that is split a step and a look at each form.
pub fn cut<N: Num>(
    state: State<N>,
    place: ByteRange,
    held: Held,
) -> Result<(State<N>, Held), Memory>
    ensures state { IfOk result (λ r. r.0 ≡ cut N.ops place state) }
    ensures held { IfOk result (λ r. r.1.items ≡ map (form_by_cut N.ops place state) held.items) }
{
    let new = Vec::new(state.allocator());
    let now = Cutting {
        state,
        new,
        forms: held,
    };
    let after = cut_all(now, &place)?;
    Ok((after.state, after.forms))
}

/// New cells in a place, whose forms are those before, as are those that are held: cells that lie partly in it are
/// split on its sides first, and then what was there is gone. Costs what a cut does, the parts with cells that touch
/// the place or mention such, and a search for each new cell.
pub fn replace<N: Num>(
    state: State<N>,
    place: ByteRange,
    new: Vec<Cell<N>>,
    held: Held,
) -> Result<(State<N>, Held), Memory>
    requires { AreNew state.model place state.cells new.items }
    ensures state { IfOk result (λ r. r.0 ≡ replaced N.ops place new.items state) }
    ensures held { IfOk result (λ r. r.1.items ≡ map (form_by_replace N.ops place state) held.items) }
{
    replace_laws::<N>();
    state.model();
    let alloc = state.allocator();
    let now = Cutting {
        state,
        new,
        forms: held,
    };
    let after = cut_all(now, &place)?;
    let forms = changed(alloc, Change::Write(place), after.forms)?;
    let written = after.state.after(&Step::Write(place), after.new)?;
    Ok((written, forms))
}
