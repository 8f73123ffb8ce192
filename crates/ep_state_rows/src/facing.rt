//! What stands in a row at a place, joined with the cells of the row.

ghost use Rattle.std.specs.Prelude.{◌≡◌, ◌+◌, ◌++◌, [], map, drop, IfOk, IfSome, IsTrue};
ghost use Rattle.ep_bitslice.specs.declared.cell.Side.TheVariants.{Shared};
ghost use Rattle.ep_cells.specs.Cells.{each_becomes};
ghost use Rattle.ep_cells.specs.Cells.{is_same_place as stand_alike};
ghost use Rattle.ep_cells.specs.Weaken.{with_join};
ghost use Rattle.ep_state_rows.specs.Rows.{further, IsRow, row_bytes, not_in_row, joined_in, Joins, Faces};

use ep_bitslice::Side;
use ep_cell_rows::places::{is_same_scalar, place_of, touches};
use ep_cell_rows::rows::push;
use ep_cell_rows::values::Union;
use ep_cells::{ByteRange, Cell};
use ep_domain::Num;
use ep_int::{Memory, Model};
use ep_states::State;
use std::alloc::Global;

type Spot = (u32, u32);

/// The place that a row takes, and what stands there as it is after it.
#[derive(Drop)]
pub struct RowWrite<N> {
    pub place: ByteRange,
    pub new: Vec<Cell<N>>,
}

fn is_same_place<N: Num>(c: &Cell<N>, q: Spot, x: &Cell<N>) -> bool
    ensures { result ≡ stand_alike (further c.now q) x.now }
{
    q.0 == x.block
        && (u64::from(q.1) + u64::from(c.offset) == u64::from(x.offset)
            && is_same_scalar(c.what, x.what))
}

fn joined<N: Num>(c: &Cell<N>, x: &Cell<N>) -> Result<Cell<N>, Memory>
    ensures { IfOk result (λ y. y ≡ with_join N.ops c.now x.now) }
{
    Ok(Cell {
        side: x.side,
        block: x.block,
        offset: x.offset,
        what: x.what,
        value: Union::Join.values(&x.value, &c.value)?,
        maybe: x.maybe || c.maybe,
        form: None,
    })
}

// The index of the first cell, from one on, that doesn't lie before x.
fn reached<N: Num>(cells: &[Cell<N>], at: usize, q: Spot, x: &Cell<N>) -> usize {
    for i in at..cells.len() {
        if u64::from(q.1) + u64::from(cells[i].offset) >= u64::from(x.offset) {
            return i;
        }
    }
    cells.len()
}

// Whether x stands just where the cell at this index does; it is then added, joined.
fn push_joined<N: Num>(
    out: &mut Vec<Cell<N>>,
    cells: &[Cell<N>],
    at: usize,
    q: Spot,
    x: &Cell<N>,
) -> Result<bool, Memory>
    ensures { IfOk result (λ b. IsTrue b
        → Joins N.ops (drop at cells.now) q x.now out.old.items out.new.items) }
{
    match cells.get(at) {
        None => Ok(false),
        Some(c) => {
            if !is_same_place(c, q, x) {
                return Ok(false);
            }
            push(out, joined(c, x)?)?;
            Ok(true)
        }
    }
}

// Whether x has no bytes in the place, or stands just where the cell at this index does.
fn push_in_row<N: Num>(
    out: &mut Vec<Cell<N>>,
    model: Model,
    start: u32,
    cells: &[Cell<N>],
    at: usize,
    q: Spot,
    place: &ByteRange,
    x: &Cell<N>,
) -> Result<bool, Memory>
    requires { IsRow model start cells.now }
    ensures others { IfOk result (λ b. IsTrue b → not_in_row model cells.now q place.now x.now ≡ []) }
    ensures joined { IfOk result (λ b. IsTrue b
        → out.new.items ≡ out.old.items ++ joined_in N.ops model cells.now q place.now x.now) }
{
    if !touches(place, &place_of(model, x)) {
        return Ok(true);
    }
    let is_there = push_joined(out, cells, at, q, x)?;
    Ok(is_there)
}

fn joined_row<N: Num>(
    alloc: Global,
    model: Model,
    start: u32,
    cells: &[Cell<N>],
    q: Spot,
    place: &ByteRange,
    about: &[&Cell<N>],
) -> Result<Option<Vec<Cell<N>>>, Memory>
    requires { IsRow model start cells.now }
    ensures others { IfOk result (λ o. IfSome o (λ _.
        each_becomes (not_in_row model cells.now q place.now) (map (λ r. r.now) about.now) ≡ [])) }
    ensures joined { IfOk result (λ o. IfSome o (λ v. v.items
        ≡ each_becomes (joined_in N.ops model cells.now q place.now) (map (λ r. r.now) about.now))) }
{
    let mut out = Vec::new(alloc);
    let mut at = 0;
    for x in about {
        at = reached(cells, at, q, *x);
        let is_there = push_in_row(&mut out, model, start, cells, at, q, place, *x)?;
        if !is_there {
            return Ok(None);
        }
    }
    Ok(Some(out))
}

fn row_at<N: Num>(
    state: &State<N>,
    start: u32,
    cells: &[Cell<N>],
    q: Spot,
    place: ByteRange,
) -> Result<Option<RowWrite<N>>, Memory>
    requires row { IsRow state.now.model start cells.now }
    requires side { place.side ≡ Shared }
    requires block { place.block ≡ q.0 }
    requires offset { place.offset ≡ q.1 + start }
    requires bytes { place.bytes ≡ row_bytes state.now.model cells.now }
    ensures { IfOk result (λ o. IfSome o (λ r. Faces N.ops state.now cells.now start q r.place r.new.items)) }
{
    let model = state.model();
    let about = state.about(&place)?;
    let found = joined_row(state.allocator(), model, start, cells, q, &place, &about)?;
    match found {
        None => Ok(None),
        Some(new) => Ok(Some(RowWrite { place, new })),
    }
}

fn row_place(start: u32, bytes: u32, q: Spot) -> Option<ByteRange>
    ensures side { IfSome result (λ p. p.side ≡ Shared) }
    ensures block { IfSome result (λ p. p.block ≡ q.0) }
    ensures offset { IfSome result (λ p. p.offset ≡ q.1 + start) }
    ensures bytes { IfSome result (λ p. p.bytes ≡ bytes) }
{
    match q.1.checked_add(start) {
        None => None,
        Some(offset) => Some(ByteRange {
            side: Side::Shared,
            block: q.0,
            offset,
            bytes,
        }),
    }
}

/// The row at a place, if all that has bytes there stands just where a cell of the row does. Looks at the cells there.
pub fn found_row<N: Num>(
    state: &State<N>,
    start: u32,
    bytes: u32,
    cells: &[Cell<N>],
    q: Spot,
) -> Result<Option<RowWrite<N>>, Memory>
    requires row { IsRow state.now.model start cells.now }
    requires bytes { bytes ≡ row_bytes state.now.model cells.now }
    ensures { IfOk result (λ o. IfSome o (λ r. Faces N.ops state.now cells.now start q r.place r.new.items)) }
{
    match row_place(start, bytes, q) {
        None => Ok(None),
        Some(place) => {
            let found = row_at(state, start, cells, q, place)?;
            Ok(found)
        }
    }
}
