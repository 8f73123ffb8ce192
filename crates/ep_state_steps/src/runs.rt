//! Places next to one another are one.

ghost use Rattle.std.specs.Prelude.{◌≡◌, ◌++◌, ◌∷◌, [], nat_lt, if◌then◌else◌, IfOk, OnOk, IfSome};
ghost use Rattle.ep_reads.specs.Single.{facing, either};
ghost use Rattle.ep_state_steps.specs.Met.{met_by_any, with_last, AreOne, IsOneMore};

use ep_bitslice::Side;
use ep_cell_rows::places::{is_same_side, place_of};
use ep_cells::{ByteRange, Cell};
use ep_domain::Num;
use ep_int::{Memory, Model};
use std::alloc::Global;

// So many bytes from where p begins on, where there are more than it has.
fn grown(p: &ByteRange, bytes: u32) -> ByteRange
    ensures { result ≡ (if nat_lt p.now.bytes bytes then record p.now { bytes = bytes } else p.now) }
{
    if p.bytes < bytes {
        ByteRange {
            side: p.side,
            block: p.block,
            offset: p.offset,
            bytes,
        }
    } else {
        *p
    }
}

// Both as one, where the second begins in the first or right behind it.
fn joined(p: &ByteRange, q: &ByteRange) -> Option<ByteRange>
    ensures { IfSome result (λ u. AreOne p.now q.now u) }
{
    if p.block != q.block {
        return None;
    }
    if q.offset < p.offset {
        return None;
    }
    let gap = q.offset - p.offset;
    if p.bytes < gap {
        return None;
    }
    match gap.checked_add(q.bytes) {
        None => None,
        Some(bytes) => Some(grown(p, bytes)),
    }
}

fn push(places: &mut Vec<ByteRange>, p: ByteRange) -> Result<(), Memory>
    ensures { OnOk result (places.new.items ≡ places.old.items ++ p ∷ []) }
{
    places.push(p).map_err(|_| Memory)
}

// The last place with one more.
fn with_place(
    places: &mut Vec<ByteRange>,
    last: Option<ByteRange>,
    p: ByteRange,
) -> Result<ByteRange, Memory>
    ensures { IfOk result (λ u. IsOneMore (with_last places.old.items last) p (places.new.items ++ u ∷ [])) }
{
    match last {
        None => Ok(p),
        Some(q) => match joined(&q, &p) {
            None => {
                push(places, q)?;
                Ok(p)
            }
            Some(u) => Ok(u),
        },
    }
}

fn with_cell<N: Num>(
    places: &mut Vec<ByteRange>,
    last: Option<ByteRange>,
    model: Model,
    y: &Cell<N>,
) -> Result<Option<ByteRange>, Memory>
    ensures { IfOk result (λ u. met_by_any model (with_last places.new.items u)
        ≡ either (met_by_any model (with_last places.old.items last)) (facing model (y.now ∷ []))) }
{
    if is_same_side(y.side, Side::Shared) {
        return Ok(last);
    }
    let u = with_place(places, last, place_of(model, y))?;
    Ok(Some(u))
}

fn push_last(places: &mut Vec<ByteRange>, last: Option<ByteRange>) -> Result<(), Memory>
    ensures { OnOk result (places.new.items ≡ with_last places.old.items last) }
{
    match last {
        None => Ok(()),
        Some(p) => push(places, p),
    }
}

/// Places that meet what faces these cells.
pub(crate) fn places_facing<N: Num>(
    alloc: Global,
    model: Model,
    ys: &[Cell<N>],
) -> Result<Vec<ByteRange>, Memory>
    ensures { IfOk result (λ v. met_by_any model v.items ≡ facing model ys.now) }
{
    let mut out = Vec::new(alloc);
    let mut last = None;
    for y in ys {
        let next = with_cell(&mut out, last, model, y)?;
        last = next;
    }
    push_last(&mut out, last)?;
    Ok(out)
}
