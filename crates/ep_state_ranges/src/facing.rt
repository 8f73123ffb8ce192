//! A cell that may be written at each place of a row where Shared cells stand that are just those places.

ghost use Rattle.std.specs.Prelude.{◌≡◌, ◌<◌, ◌≤◌, ◌+◌, ◌++◌, [], length, map, true, IfOk, IfSome, IsTrue};
ghost use Rattle.ep_cells.specs.Cells.{each_becomes};
ghost use Rattle.ep_cells.specs.Weaken.{with_join};
ghost use Rattle.ep_int.specs.Types.{size_of};
ghost use Rattle.ep_state_ranges.specs.InRow.{IsRow, row_bytes, is_in_row, not_in_row, joined_in, Faces};

use ep_bitslice::Side;
use ep_cell_rows::places::{is_same_scalar, is_same_side, place_of, touches};
use ep_cell_rows::rows::push;
use ep_cell_rows::values::Union;
use ep_cells::{ByteRange, Cell};
use ep_domain::Num;
use ep_int::{Memory, Model, size};
use ep_states::State;

type Spot = (u32, u32);

/// The place that a row takes, and its cells as they are after it.
#[derive(Drop)]
pub struct RowWrite<N> {
    pub place: ByteRange,
    pub new: Vec<Cell<N>>,
}

// ---- places

fn is_at(q: Spot, block: u32, offset: u64) -> bool
    ensures { IsTrue result → q ≡ (block, offset) }
{
    q.0 == block && u64::from(q.1) == offset
}

// Where the places end, if each lies behind the one before it.
fn row_end(spots: &[Spot], block: u32, offset: u32, bytes: u32) -> Option<u64>
    ensures row { IfSome result (λ _. IsRow block offset bytes spots.now) }
    ensures end { IfSome result (λ e. e ≡ offset + row_bytes bytes spots.now) }
{
    let mut at = u64::from(offset);
    for q in spots {
        if !is_at(*q, block, at) {
            return None;
        }
        at = u64::from(q.1) + u64::from(bytes);
    }
    Some(at)
}

fn length_to(offset: u32, end: u64) -> Option<u32>
    ensures { IfSome result (λ n. offset + n ≡ end) }
{
    if end < u64::from(offset) {
        return None;
    }
    u32::try_from(end - u64::from(offset)).ok()
}

fn row_place(side: Side, bytes: u32, spots: &[Spot]) -> Option<ByteRange>
    ensures side { IfSome result (λ p. p.side ≡ side) }
    ensures bytes { IfSome result (λ p. p.bytes ≡ row_bytes bytes spots.now) }
    ensures row { IfSome result (λ p. IsRow p.block p.offset bytes spots.now) }
    ensures some { IfSome result (λ _. 1 ≤ length spots.now) }
{
    if spots.is_empty() {
        return None;
    }
    let (block, offset) = spots[0];
    match row_end(spots, block, offset, bytes) {
        None => None,
        Some(end) => match length_to(offset, end) {
            None => None,
            Some(bytes) => Some(ByteRange {
                side,
                block,
                offset,
                bytes,
            }),
        },
    }
}

// ---- cells

fn joined<N: Num>(c: &Cell<N>, x: &Cell<N>) -> Result<Cell<N>, Memory>
    ensures { IfOk result (λ y. y ≡ with_join N.ops c.now x.now) }
{
    Ok(Cell {
        side: x.side,
        block: x.block,
        offset: x.offset,
        what: x.what,
        value: Union::Join.values(&x.value, &c.value)?,
        maybe: x.maybe || c.maybe,
        form: None,
    })
}

fn push_joined<N: Num>(
    out: &mut Vec<Cell<N>>,
    model: Model,
    c: &Cell<N>,
    p: &ByteRange,
    x: &Cell<N>,
) -> Result<(), Memory>
    ensures { IfOk result (λ _. out.new.items ≡ out.old.items ++ joined_in N.ops model c.now p.now x.now) }
{
    if touches(p, &place_of(model, x)) {
        push(out, joined(c, x)?)
    } else {
        Ok(())
    }
}

fn push_all_joined<N: Num>(
    out: &mut Vec<Cell<N>>,
    model: Model,
    c: &Cell<N>,
    p: &ByteRange,
    cells: &[&Cell<N>],
) -> Result<(), Memory>
    ensures { IfOk result (λ _. out.new.items ≡ out.old.items
        ++ each_becomes (joined_in N.ops model c.now p.now) (map (λ r. r.now) cells.now)) }
{
    for x in cells {
        push_joined(out, model, c, p, *x)?;
    }
    Ok(())
}

fn is_in_row<N: Num>(bytes: u32, c: &Cell<N>, p: &ByteRange, x: &Cell<N>) -> bool
    requires { 0 < bytes }
    ensures { result ≡ is_in_row bytes c.now p.now x.now }
{
    is_same_side(x.side, Side::Shared)
        && is_same_scalar(c.what, x.what)
        && p.offset <= x.offset
        && x.offset.saturating_sub(p.offset) % bytes == 0
}

fn is_elsewhere_or_in_row<N: Num>(model: Model, c: &Cell<N>, p: &ByteRange, x: &Cell<N>) -> bool
    ensures { IsTrue result → not_in_row model c.now p.now x.now ≡ [] }
{
    let bytes = size(model, c.what);
    if bytes == 0 {
        return false;
    }
    if touches(p, &place_of(model, x)) {
        is_in_row(bytes, c, p, x)
    } else {
        true
    }
}

fn are_in_row<N: Num>(model: Model, c: &Cell<N>, p: &ByteRange, cells: &[&Cell<N>]) -> bool
    ensures { IsTrue result → each_becomes (not_in_row model c.now p.now) (map (λ r. r.now) cells.now) ≡ [] }
{
    for x in cells {
        if !is_elsewhere_or_in_row(model, c, p, *x) {
            return false;
        }
    }
    true
}

fn row_at<N: Num>(
    state: &State<N>,
    c: &Cell<N>,
    spots: &[Spot],
    bytes: u32,
    place: ByteRange,
) -> Result<Option<RowWrite<N>>, Memory>
    requires shared { c.now.side ≡ Side.Shared }
    requires side { place.side ≡ c.now.side }
    requires own { bytes ≡ size_of state.now.model c.now.what }
    requires bytes { place.bytes ≡ row_bytes bytes spots.now }
    requires row { IsRow place.block place.offset bytes spots.now }
    requires some { 1 ≤ length spots.now }
    ensures { IfOk result (λ o. IfSome o (λ r. Faces N.ops state.now c.now spots.now r.place r.new.items)) }
{
    let model = state.model();
    let about = state.about(&place)?;
    if !are_in_row(model, c, &place, &about) {
        return Ok(None);
    }
    let mut new = Vec::new(state.allocator());
    push_all_joined(&mut new, model, c, &place, &about)?;
    Ok(Some(RowWrite { place, new }))
}

/// The row that these places are, if they are one and no other cells have bytes there. Looks at the places, and at the
/// cells there.
pub fn found_row<N: Num>(
    state: &State<N>,
    c: &Cell<N>,
    spots: &[Spot],
) -> Result<Option<RowWrite<N>>, Memory>
    requires { c.now.side ≡ Side.Shared }
    ensures { IfOk result (λ o. IfSome o (λ r. Faces N.ops state.now c.now spots.now r.place r.new.items)) }
{
    let bytes = size(state.model(), c.what);
    match row_place(c.side, bytes, spots) {
        None => Ok(None),
        Some(place) => {
            let found = row_at(state, c, spots, bytes, place)?;
            Ok(found)
        }
    }
}
