//! What a copy takes of a place, and how it moves.

ghost use Rattle.std.specs.Prelude.{◌≡◌, ◌++◌, ◌∷◌, [], map, IfOk};
ghost use Rattle.std.specs.List.{filter};
ghost use Rattle.ep_cells.specs.Cells.{encloses, each_becomes, place_of as the_place};
ghost use Rattle.ep_cells.specs.States.{Each};
ghost use Rattle.ep_cell_ranges.specs.Moves.{is_whole_shared, moved_to, taken, taken_by_both, taken_cell, taken_if};
ghost use Rattle.ep_reads.specs.Bytes.{form_of_cell, order_on as the_order};
ghost use Rattle.ep_reads.specs.Split.{byte_cells};
ghost use Rattle.ep_state_ranges.specs.Taken.{taken_share, MovesWithin};
ghost use Rattle.ep_synthesis.specs.Parts.{IsSized};

use ep_bitslice::Side;
use ep_cell_rows::cell::copy_cell;
use ep_cell_rows::places::{end, is_same_side, place_of, share_memory, touches};
use ep_cell_rows::rows::push;
use ep_cell_rows::values::{boxed, copy_value};
use ep_cells::{ByteRange, Cell};
use ep_domain::Num;
use ep_int::{Memory, Model};
use ep_scalar_reads::byte::{form_of_cell, order_on};
use ep_states::State;
use ep_synthesis::split::byte_cells;

/// What is taken of the cells of a place.
#[derive(Clone, Copy)]
pub enum Share {
    /// Those of its side.
    Whole,
    /// Of the left side, where both sides take it: with the Shared cells that are all in it.
    WithLeft,
    /// Of the right side, where both sides take it: without them.
    WithRight,
}

fn encloses(p: &ByteRange, q: &ByteRange) -> bool
    ensures { result ≡ encloses p.now q.now }
{
    p.offset <= q.offset && end(q) <= end(p)
}

// ---- one cell

fn formed<N: Num>(state: &State<N>, side: Side, x: &Cell<N>) -> Result<Cell<N>, Memory>
    ensures { IfOk result (λ c. c ≡ record x.now { side = side; form = form_of_cell x.now }) }
{
    Ok(Cell {
        side,
        block: x.block,
        offset: x.offset,
        what: x.what,
        value: copy_value(&x.value)?,
        maybe: x.maybe,
        form: boxed(state.allocator(), form_of_cell(x))?,
    })
}

fn push_within<N: Num>(
    out: &mut Vec<Cell<N>>,
    model: Model,
    p: &ByteRange,
    y: &Cell<N>,
) -> Result<(), Memory>
    ensures { IfOk result (λ _. out.new.items
        ≡ out.old.items ++ filter (λ z. encloses p.now (the_place model z)) (y.now ∷ [])) }
{
    if encloses(p, &place_of(model, y)) {
        push(out, copy_cell(y)?)
    } else {
        Ok(())
    }
}

fn push_all_within<N: Num>(
    out: &mut Vec<Cell<N>>,
    model: Model,
    p: &ByteRange,
    ys: &[Cell<N>],
) -> Result<(), Memory>
    ensures { IfOk result (λ _. out.new.items
        ≡ out.old.items ++ filter (λ z. encloses p.now (the_place model z)) ys.now) }
{
    for y in ys {
        push_within(out, model, p, y)?;
    }
    Ok(())
}

fn push_bytes<N: Num>(
    out: &mut Vec<Cell<N>>,
    state: &State<N>,
    p: &ByteRange,
    x: &Cell<N>,
) -> Result<(), Memory>
    requires { IsSized state.now.model x.now }
    ensures { IfOk result (λ _. out.new.items ≡ out.old.items
        ++ filter (λ z. encloses p.now (the_place state.now.model z)) (byte_cells N.ops state.now.model
        (the_order p.now.side state.now.orders) p.now.side (form_of_cell x.now) x.now)) }
{
    let model = state.model();
    let order = order_on(p.side, state.orders());
    let bytes = byte_cells(state.allocator(), model, order, p.side, &form_of_cell(x), x)?;
    push_all_within(out, model, p, &bytes)?;
    Ok(())
}

fn push_cell<N: Num>(
    out: &mut Vec<Cell<N>>,
    state: &State<N>,
    p: &ByteRange,
    side: Side,
    x: &Cell<N>,
) -> Result<(), Memory>
    requires { IsSized state.now.model x.now }
    ensures { IfOk result (λ _. out.new.items ≡ out.old.items ++ taken_cell N.ops state.now p.now side x.now) }
{
    if encloses(p, &place_of(state.model(), x)) {
        push(out, formed(state, side, x)?)
    } else {
        push_bytes(out, state, p, x)
    }
}

fn push_if<N: Num>(
    out: &mut Vec<Cell<N>>,
    state: &State<N>,
    p: &ByteRange,
    side: Side,
    x: &Cell<N>,
) -> Result<(), Memory>
    requires { IsSized state.now.model x.now }
    ensures { IfOk result (λ _. out.new.items ≡ out.old.items ++ taken_if N.ops state.now p.now side x.now) }
{
    if share_memory(p.side, x.side) && touches(p, &place_of(state.model(), x)) {
        push_cell(out, state, p, side, x)
    } else {
        Ok(())
    }
}

fn is_whole_shared<N: Num>(state: &State<N>, p: &ByteRange, x: &Cell<N>) -> bool
    ensures { result ≡ is_whole_shared N.ops state.now p.now x.now }
{
    is_same_side(x.side, Side::Shared) && encloses(p, &place_of(state.model(), x))
}

fn push_with_left<N: Num>(
    out: &mut Vec<Cell<N>>,
    state: &State<N>,
    p: &ByteRange,
    x: &Cell<N>,
) -> Result<(), Memory>
    requires { IsSized state.now.model x.now }
    ensures { IfOk result (λ _. out.new.items
        ≡ out.old.items ++ taken_share N.ops Share.WithLeft state.now p.now x.now) }
{
    if is_whole_shared(state, p, x) {
        push_if(out, state, p, Side::Shared, x)
    } else {
        push_if(out, state, p, p.side, x)
    }
}

fn push_with_right<N: Num>(
    out: &mut Vec<Cell<N>>,
    state: &State<N>,
    p: &ByteRange,
    x: &Cell<N>,
) -> Result<(), Memory>
    requires { IsSized state.now.model x.now }
    ensures { IfOk result (λ _. out.new.items
        ≡ out.old.items ++ taken_share N.ops Share.WithRight state.now p.now x.now) }
{
    if is_whole_shared(state, p, x) {
        Ok(())
    } else {
        push_if(out, state, p, p.side, x)
    }
}

fn push_share<N: Num>(
    out: &mut Vec<Cell<N>>,
    state: &State<N>,
    p: &ByteRange,
    share: Share,
    x: &Cell<N>,
) -> Result<(), Memory>
    requires { IsSized state.now.model x.now }
    ensures { IfOk result (λ _. out.new.items ≡ out.old.items ++ taken_share N.ops share state.now p.now x.now) }
{
    match share {
        Share::Whole => push_if(out, state, p, p.side, x),
        Share::WithLeft => push_with_left(out, state, p, x),
        Share::WithRight => push_with_right(out, state, p, x),
    }
}

// ---- all cells by the place

fn push_shares<N: Num>(
    out: &mut Vec<Cell<N>>,
    state: &State<N>,
    p: &ByteRange,
    share: Share,
    cells: &[&Cell<N>],
) -> Result<(), Memory>
    requires { Each (IsSized state.now.model) (map (λ r. r.now) cells.now) }
    ensures { IfOk result (λ _. out.new.items ≡ out.old.items
        ++ each_becomes (taken_share N.ops share state.now p.now) (map (λ r. r.now) cells.now)) }
{
    for x in cells {
        push_share(out, state, p, share, *x)?;
    }
    Ok(())
}

fn push_taken<N: Num>(
    out: &mut Vec<Cell<N>>,
    state: &State<N>,
    p: &ByteRange,
    share: Share,
) -> Result<(), Memory>
    ensures { IfOk result (λ _. out.new.items
        ≡ out.old.items ++ each_becomes (taken_share N.ops share state.now p.now) state.now.cells) }
{
    state.model();
    let about = state.about(p)?;
    push_shares(out, state, p, share, &about)?;
    Ok(())
}

/// What a side takes of a place: the cells in it, with the forms that reads give, and the bytes there of those that lie
/// partly in it. Looks at the cells by the place alone.
pub fn taken<N: Num>(state: &State<N>, place: &ByteRange) -> Result<Vec<Cell<N>>, Memory>
    ensures { IfOk result (λ v. v.items ≡ taken N.ops state.now place.now) }
{
    let mut out = Vec::new(state.allocator());
    push_taken(&mut out, state, place, Share::Whole)?;
    Ok(out)
}

/// What both sides take of so many bytes from a place on: the left with the Shared cells that are all in it, then the
/// right without them. Looks at the cells by the place alone.
pub fn taken_by_both<N: Num>(
    state: &State<N>,
    block: u32,
    offset: u32,
    bytes: u32,
) -> Result<Vec<Cell<N>>, Memory>
    ensures { IfOk result (λ v. v.items ≡ taken_by_both N.ops state.now (block, offset) bytes) }
{
    let left = ByteRange {
        side: Side::Left,
        block,
        offset,
        bytes,
    };
    let right = ByteRange {
        side: Side::Right,
        block,
        offset,
        bytes,
    };
    let mut out = Vec::new(state.allocator());
    push_taken(&mut out, state, &left, Share::WithLeft)?;
    push_taken(&mut out, state, &right, Share::WithRight)?;
    Ok(out)
}

// ---- moves

fn moved<N>(from: (u32, u32), to: (u32, u32), x: Cell<N>) -> Cell<N>
    requires { MovesWithin from to x }
    ensures { result ≡ moved_to from to x }
{
    Cell {
        side: x.side,
        block: to.0,
        offset: x.offset.saturating_sub(from.1) + to.1,
        what: x.what,
        value: x.value,
        maybe: x.maybe,
        form: x.form,
    }
}

/// Cells as far from the second place, given by block and offset, as they were from the first. Their forms stay.
pub fn moved_to<N: Num>(
    from: (u32, u32),
    to: (u32, u32),
    cells: Vec<Cell<N>>,
) -> Result<Vec<Cell<N>>, Memory>
    requires { Each (MovesWithin from to) cells.items }
    ensures { IfOk result (λ v. v.items ≡ map (moved_to from to) cells.items) }
{
    let mut out = Vec::new(*cells.allocator());
    for x in cells {
        push(&mut out, moved(from, to, x))?;
    }
    Ok(out)
}
