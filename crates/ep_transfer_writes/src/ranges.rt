//! The bytes of a run at one place, all at once.

ghost use Rattle.std.specs.Prelude.{◌≡◌, ◌++◌, ◌∷◌, [], ◌+◌, ◌-◌, ◌^◌, ◌<◌, ◌≤◌, IfOk, IfSome, IsTrue, Some, false};
ghost use Rattle.ep_int.specs.Types.{size_of};
ghost use Rattle.ep_cells.specs.Look.{is_some_partly_in};
ghost use Rattle.ep_cells.specs.Forms.{common_form};
ghost use Rattle.ep_transfers.specs.Writes as spec;
ghost use Rattle.ep_transfer_places.specs.Room.{view as shown_places};
ghost use Rattle.ep_transfer_writes.specs.Waiting.{view, item_view, CanStand, ItemFits, Keeps};
ghost use Rattle.ep_transfer_writes.specs.Running.{Agree, RunsAt, item_cell, copies, range_of, range_written};

use crate::cells::{common_form, shared_cell, side_cell};
use crate::changes::{forms, with_forms};
use crate::item::{Item, Underway};
use crate::sides::On;
use crate::writes::one_spot;
use ep_bitslice::{Form, Side};
use ep_cell_ranges::replace_laws;
use ep_cell_rows::values::{copy_boxed, copy_form, copy_value};
use ep_cells::{ByteRange, Cell};
use ep_domain::Num;
use ep_equalities::Mode;
use ep_int::{IntType, Memory, Scalar};
use ep_state_ranges::replace;
use ep_states::State;
use ep_transfer_places::Places;
use std::alloc::Global;

// ---- where a run goes to one place

fn agree_with(f: &Form, g: &Option<Form>) -> bool
    ensures { IsTrue result → Agree (Some f.now) g.now }
{
    match g {
        None => true,
        Some(g) => f.is_same(g),
    }
}

// Whether the forms agree after each write.
fn agree(f: &Option<Form>, g: &Option<Form>) -> bool
    ensures { IsTrue result → Agree f.now g.now }
{
    match f {
        None => true,
        Some(f) => agree_with(f, g),
    }
}

fn one_at(side: Side, spots: &[(u32, u32)]) -> Option<(Side, (u32, u32))>
    ensures { IfSome result (λ r. (r.0 ≡ side) × (spots.now ≡ r.1 ∷ [])) }
{
    match spots {
        [] => None,
        [q] => Some((side, *q)),
        [_, _, ..] => None,
    }
}

fn both_at<N: Num>(same_to: bool, places: &Places, item: &Item<N>) -> Option<(Side, (u32, u32))>
    ensures { IfSome result (RunsAt Mode.Both same_to (shown_places places.now) (item_view item.now)) }
{
    if !same_to {
        return None;
    }
    if !item.same {
        return None;
    }
    if !agree(&item.pair.left.form, &item.pair.right.form) {
        return None;
    }
    match one_spot(&places.left, &places.right) {
        None => None,
        Some(q) => Some((Side::Shared, q)),
    }
}

/// The side of cells and the place of a run, where it goes to one place.
pub fn run_at<N: Num>(
    mode: Mode,
    same_to: bool,
    places: &Places,
    item: &Item<N>,
) -> Option<(Side, (u32, u32))>
    ensures { IfSome result (RunsAt mode same_to (shown_places places.now) (item_view item.now)) }
{
    match mode {
        Mode::Both => both_at(same_to, places, item),
        Mode::Left => one_at(Side::Left, &places.left),
        Mode::Right => one_at(Side::Right, &places.right),
    }
}

/// Whether the bytes are some, and no cell lies partly in them.
pub fn is_whole<N: Num>(state: &State<N>, side: Side, spot: (u32, u32), bytes: u32) -> bool
    ensures some { IsTrue result → 0 < bytes }
    ensures uncut { IsTrue result → is_some_partly_in state.now.model
        (record { side = side; block = spot.0; offset = spot.1; bytes = bytes }) state.now.cells ≡ false }
{
    if bytes == 0 {
        return false;
    }
    !state.partly(&ByteRange {
        side,
        block: spot.0,
        offset: spot.1,
        bytes,
    })
}

/// How many bytes at the end, up to 8, a cell that lies partly in them takes from a run.
pub(crate) fn cut_at_end<N: Num>(state: &State<N>, side: Side, spot: (u32, u32), bytes: u32) -> u32
    ensures { result ≤ bytes }
{
    for k in 0..bytes.min(8) {
        let place = ByteRange {
            side,
            block: spot.0,
            offset: spot.1,
            bytes: bytes - k,
        };
        if !state.partly(&place) {
            return k;
        }
    }
    0
}

// ---- new cells

fn byte_at<N: Num>(c: &Cell<N>, offset: u32) -> Result<Cell<N>, Memory>
    ensures { IfOk result (λ x. x ≡ record c.now { offset = offset }) }
{
    Ok(Cell {
        side: c.side,
        block: c.block,
        offset,
        what: c.what,
        value: copy_value(&c.value)?,
        maybe: c.maybe,
        form: copy_boxed(&c.form)?,
    })
}

fn push<N: Num>(out: &mut Vec<Cell<N>>, c: Cell<N>) -> Result<(), Memory>
    ensures { IfOk result (λ _. out.new.items ≡ out.old.items ++ c ∷ []) }
{
    out.push(c).map_err(|_| Memory)
}

fn copies<N: Num>(alloc: Global, c: &Cell<N>, bytes: u32) -> Result<Vec<Cell<N>>, Memory>
    requires { c.now.offset + bytes ≤ 2 ^ 32 }
    ensures { IfOk result (λ v. v.items ≡ copies c.now bytes) }
{
    let mut out = Vec::new(alloc);
    let first = c.offset;
    for i in 0..bytes {
        let x = byte_at(c, first + i)?;
        push(&mut out, x)?;
    }
    Ok(out)
}

/// A cell of what waits, on a side of cells.
pub fn item_cell<N: Num>(
    state: &State<N>,
    side: Side,
    what: Scalar,
    item: &Item<N>,
    spot: (u32, u32),
) -> Result<Cell<N>, Memory>
    requires item { ItemFits state.now what (item_view item.now) }
    requires room { spot.1 + size_of state.now.model what ≤ 2 ^ 32 }
    ensures value { IfOk result (λ c. c ≡ item_cell N.ops side what (item_view item.now) spot) }
    ensures stands { IfOk result (λ c. CanStand state.now c) }
{
    match side {
        Side::Left => {
            let form = copy_form(&item.pair.left.form);
            side_cell(state, On::Left, what, item, form, spot)
        }
        Side::Right => {
            let form = copy_form(&item.pair.right.form);
            side_cell(state, On::Right, what, item, form, spot)
        }
        Side::Shared => {
            let form = common_form(&item.pair.left.form, &item.pair.right.form);
            shared_cell(state, what, item, form, spot)
        }
    }
}

/// A cell for each of so many bytes from this one on.
pub(crate) fn write_range<N: Num>(
    c: &Cell<N>,
    bytes: u32,
    u: Underway<N>,
) -> Result<Underway<N>, Memory>
    requires stands { CanStand u.state c.now }
    requires byte { c.now.what ≡ Scalar.Int IntType.U8 }
    requires room { c.now.offset + bytes ≤ 2 ^ 32 }
    ensures value { IfOk result (λ r. view r ≡ range_written N.ops c.now bytes (view u)) }
    ensures keeps { IfOk result (λ r. Keeps (view u) (view r)) }
{
    replace_laws::<N>();
    u.state.model();
    let alloc = u.state.allocator();
    let place = ByteRange {
        side: c.side,
        block: c.block,
        offset: c.offset,
        bytes,
    };
    let held = forms(alloc, &u.item.pair)?;
    let new = copies(alloc, c, bytes)?;
    let after = replace(u.state, place, new, held)?;
    let item = with_forms(u.item, &after.1);
    Ok(Underway {
        state: after.0,
        item,
    })
}
