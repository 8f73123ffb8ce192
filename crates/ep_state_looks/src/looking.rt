//! Cells of a state that are looked for about a place.

ghost use Rattle.std.specs.Prelude.{◌≡◌, ◌++◌, ◌∷◌, [], ◌&&◌, not, map, IfOk};
ghost use Rattle.std.specs.List.{filter};
ghost use Rattle.std.specs.Option.{option_map};
ghost use Rattle.ep_cells.specs.Cells.{is_same_cell as are_one, meets, place_of as the_place};
ghost use Rattle.ep_cells.specs.Both.{cell_like};
ghost use Rattle.ep_reads.specs.Split.{cut_cells};
ghost use Rattle.ep_reads.specs.Unify.{is_crossed};
ghost use Rattle.ep_reads.specs.Single.{shared_where};
ghost use Rattle.ep_state_looks.specs.Looks.{met_by, is_met};

use ep_bitslice::Side;
use ep_cell_rows::cell::copy_cell;
use ep_cell_rows::places::{is_partly_in, is_same_cell, is_same_side, meets, place_of, touches};
use ep_cell_rows::rows::push;
use ep_cells::{ByteRange, Cell};
use ep_domain::Num;
use ep_int::{Memory, Model};
use ep_states::State;
use std::alloc::Global;

// ---- the cell like another

fn like_among<'a, N: Num>(x: &Cell<N>, cells: &[&'a Cell<N>]) -> Option<&'a Cell<N>>
    ensures { option_map (λ c. c.now) result ≡ cell_like x.now (map (λ r. r.now) cells.now) }
{
    for c in cells {
        if is_same_cell(*c, x) {
            return Some(*c);
        }
    }
    None
}

fn copied<N: Num>(cell: Option<&Cell<N>>) -> Result<Option<Cell<N>>, Memory>
    ensures { IfOk result (λ o. o ≡ option_map (λ c. c.now) cell.entry) }
{
    match cell {
        None => Ok(None),
        Some(y) => Ok(Some(copy_cell(y)?)),
    }
}

/// The cell of the same side, place and type.
pub fn like<N: Num>(state: &State<N>, x: &Cell<N>) -> Result<Option<Cell<N>>, Memory>
    ensures { IfOk result (λ o. o ≡ cell_like x.now state.now.cells) }
{
    let place = place_of(state.model(), x);
    let about = state.about(&place)?;
    let y = copied(like_among(x, &about))?;
    Ok(y)
}

// ---- Shared cells with bytes in a place

fn is_met<N: Num>(model: Model, p: &ByteRange, x: &Cell<N>) -> bool
    ensures { result ≡ is_met model p.now x.now }
{
    is_same_side(x.side, Side::Shared) && touches(p, &place_of(model, x))
}

fn push_met<N: Num>(
    out: &mut Vec<Cell<N>>,
    model: Model,
    p: &ByteRange,
    x: &Cell<N>,
) -> Result<(), Memory>
    ensures { IfOk result (λ _. out.new.items ≡ out.old.items ++ filter (is_met model p.now) (x.now ∷ [])) }
{
    if is_met(model, p, x) {
        push(out, copy_cell(x)?)
    } else {
        Ok(())
    }
}

fn met_among<N: Num>(
    alloc: Global,
    model: Model,
    p: &ByteRange,
    cells: &[&Cell<N>],
) -> Result<Vec<Cell<N>>, Memory>
    ensures { IfOk result (λ v. v.items ≡ filter (is_met model p.now) (map (λ r. r.now) cells.now)) }
{
    let mut out = Vec::new(alloc);
    for x in cells {
        push_met(&mut out, model, p, *x)?;
    }
    Ok(out)
}

/// The Shared cells that have an offset of a place, of whatever side.
pub fn met<N: Num>(state: &State<N>, p: &ByteRange) -> Result<Vec<Cell<N>>, Memory>
    ensures { IfOk result (λ v. v.items ≡ shared_where (met_by state.now.model p.now) state.now.cells) }
{
    let model = state.model();
    let about = state.about(p)?;
    let met = met_among(state.allocator(), model, p, &about)?;
    Ok(met)
}

// ---- cells that others cross

fn crosses<N: Num>(model: Model, x: &Cell<N>, y: &Cell<N>) -> bool
    ensures { result ≡ (meets (the_place model x.now) (the_place model y.now) && not (are_one x.now y.now)) }
{
    meets(&place_of(model, x), &place_of(model, y)) && !is_same_cell(x, y)
}

fn is_crossed_among<N: Num>(model: Model, cells: &[&Cell<N>], x: &Cell<N>) -> bool
    ensures { result ≡ is_crossed model (map (λ r. r.now) cells.now) x.now }
{
    for y in cells {
        if crosses(model, x, *y) {
            return true;
        }
    }
    false
}

fn is_crossed<N: Num>(state: &State<N>, x: &Cell<N>) -> Result<bool, Memory>
    ensures { IfOk result (λ b. b ≡ is_crossed state.now.model state.now.cells x.now) }
{
    let model = state.model();
    let place = place_of(model, x);
    let about = state.about(&place)?;
    Ok(is_crossed_among(model, &about, x))
}

fn push_crossed<N: Num>(out: &mut Vec<Cell<N>>, state: &State<N>, x: &Cell<N>) -> Result<(), Memory>
    ensures { IfOk result (λ _. out.new.items
        ≡ out.old.items ++ filter (is_crossed state.now.model state.now.cells) (x.now ∷ [])) }
{
    if is_crossed(state, x)? {
        push(out, copy_cell(x)?)
    } else {
        Ok(())
    }
}

/// Those of these cells that cells of the state cross.
pub fn crossed<N: Num>(state: &State<N>, xs: &[Cell<N>]) -> Result<Vec<Cell<N>>, Memory>
    ensures { IfOk result (λ v. v.items ≡ filter (is_crossed state.now.model state.now.cells) xs.now) }
{
    let mut out = Vec::new(state.allocator());
    for x in xs {
        push_crossed(&mut out, state, x)?;
    }
    Ok(out)
}

// ---- cells that lie partly in a place

fn push_cut<N: Num>(
    out: &mut Vec<Cell<N>>,
    model: Model,
    p: &ByteRange,
    c: &Cell<N>,
) -> Result<(), Memory>
    ensures { IfOk result (λ _. out.new.items ≡ out.old.items ++ cut_cells model p.now (c.now ∷ [])) }
{
    if is_partly_in(p, &place_of(model, c)) {
        push(out, copy_cell(c)?)
    } else {
        Ok(())
    }
}

fn cut_among<N: Num>(
    alloc: Global,
    model: Model,
    p: &ByteRange,
    cells: &[&Cell<N>],
) -> Result<Vec<Cell<N>>, Memory>
    ensures { IfOk result (λ v. v.items ≡ cut_cells model p.now (map (λ r. r.now) cells.now)) }
{
    let mut out = Vec::new(alloc);
    for c in cells {
        push_cut(&mut out, model, p, *c)?;
    }
    Ok(out)
}

/// The cells that lie partly in a place.
pub fn cut<N: Num>(state: &State<N>, p: &ByteRange) -> Result<Vec<Cell<N>>, Memory>
    ensures { IfOk result (λ v. v.items ≡ cut_cells state.now.model p.now state.now.cells) }
{
    let model = state.model();
    let about = state.about(p)?;
    let cut = cut_among(state.allocator(), model, p, &about)?;
    Ok(cut)
}
