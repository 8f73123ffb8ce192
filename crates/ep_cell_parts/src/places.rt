//! Places of Left and Right cells that are surely the same.

ghost use Rattle.std.specs.Prelude.{◌≡◌, ◌++◌, ◌∷◌, [], Some, IfOk, OnOk, IfSome, IfNone};
ghost use Rattle.std.specs.Option.{option_map};
ghost use Rattle.ep_cells.specs.States.{HaveCellsAlike};
ghost use Rattle.ep_cells.specs.Reshare.{cell_from, places};
ghost use Rattle.ep_shared_parts.specs.Spread.{outlines, all_items, AreSpread};
ghost use Rattle.ep_shared_parts.specs.Mentions.{number_of};
ghost use Rattle.ep_cell_parts.specs.Alike.{is_same_pair, is_same_at, are_different};

use ep_bitslice::Side;
use ep_cell_changes::reshare::{self, are_same};
use ep_cell_rows::places::{is_same_cell, is_same_side};
use ep_cells::Cell;
use ep_domain::Num;
use ep_int::Memory;
use ep_shared_parts::numbers::number_at;
use ep_shared_parts::parts::{Part, window};
use ep_shared_parts::walks::{At, next};
use std::alloc::Global;

fn push_places(out: &mut Vec<(u32, u32)>, more: &[(u32, u32)]) -> Result<(), Memory>
    ensures { OnOk result (out.new.items ≡ out.old.items ++ more.now) }
{
    out.extend_from_slice(more).map_err(|_| Memory)
}

/// The places at which Left cells begin.
pub fn places<N: Num>(alloc: Global, parts: &[Part<Cell<N>>]) -> Result<Vec<(u32, u32)>, Memory>
    ensures { IfOk result (λ v. v.items ≡ places (all_items parts.now)) }
{
    let mut out = Vec::new(alloc);
    for part in parts {
        let more = reshare::places(alloc, &part.items)?;
        push_places(&mut out, &more)?;
    }
    Ok(out)
}

fn push_place<N: Num>(out: &mut Vec<(u32, u32)>, c: &Cell<N>) -> Result<(), Memory>
    ensures { OnOk result (out.new.items ≡ out.old.items ++ places (c.now ∷ [])) }
{
    if is_same_side(c.side, Side::Left) {
        out.push((c.block, c.offset)).map_err(|_| Memory)
    } else {
        Ok(())
    }
}

/// The places at which Left cells begin, where the others are cells of the same sides, places and types.
pub fn places_alike<N: Num>(
    alloc: Global,
    xs: &[Part<Cell<N>>],
    ys: &[Part<Cell<N>>],
) -> Result<Option<Vec<(u32, u32)>>, Memory>
    ensures places { IfOk result (λ o. IfSome o (λ v. v.items ≡ places (all_items xs.now))) }
    ensures alike { IfOk result (λ o. IfSome o (λ _. HaveCellsAlike (all_items xs.now) (all_items ys.now))) }
    ensures unlike { IfOk result (λ o. IfNone o (HaveCellsAlike (all_items xs.now) (all_items ys.now) → ⊥)) }
{
    let mut out = Vec::new(alloc);
    let mut a = At { part: 0, item: 0 };
    let mut b = At { part: 0, item: 0 };
    loop {
        let Some(x) = next(xs, a) else {
            return match next(ys, b) {
                None => Ok(Some(out)),
                Some(_) => Ok(None),
            };
        };
        let Some(y) = next(ys, b) else {
            return Ok(None);
        };
        if !is_same_cell(x.0, y.0) {
            return Ok(None);
        }
        push_place(&mut out, x.0)?;
        a = x.1;
        b = y.1;
    }
}

fn cell_in<N: Num>(side: Side, block: u32, offset: u32, parts: &[Part<Cell<N>>]) -> Option<&Cell<N>>
    ensures { option_map (λ c. c.now) result ≡ cell_from side block offset (all_items parts.now) }
{
    for part in parts {
        if let Some(x) = reshare::cell_from(side, block, offset, &part.items) {
            return Some(x);
        }
    }
    None
}

/// The cell of a side that begins at an offset. Takes no memory.
pub fn cell_from<N: Num>(
    side: Side,
    block: u32,
    offset: u32,
    parts: &[Part<Cell<N>>],
) -> Option<&Cell<N>>
    requires { AreSpread (outlines number_of parts.now) }
    ensures { option_map (λ c. c.now) result ≡ cell_from side block offset (all_items parts.now) }
{
    let at = number_at(block, offset);
    cell_in(side, block, offset, window(parts, at, at))
}

fn is_same_as<N: Num>(l: &Cell<N>, r: Option<&Cell<N>>) -> bool
    ensures { result ≡ is_same_pair N.ops (Some l.now) (option_map (λ c. c.now) r.entry) }
{
    match r {
        None => false,
        Some(r) => are_same(l, r),
    }
}

fn is_same_pair<N: Num>(l: Option<&Cell<N>>, r: Option<&Cell<N>>) -> bool
    ensures { result ≡ is_same_pair N.ops (option_map (λ c. c.now) l.entry) (option_map (λ c. c.now) r.entry) }
{
    match l {
        None => false,
        Some(l) => is_same_as(l, r),
    }
}

fn is_same_at<N: Num>(block: u32, offset: u32, parts: &[Part<Cell<N>>]) -> bool
    requires { AreSpread (outlines number_of parts.now) }
    ensures { result ≡ is_same_at N.ops block offset (all_items parts.now) }
{
    let l = cell_from(Side::Left, block, offset, parts);
    let r = cell_from(Side::Right, block, offset, parts);
    is_same_pair(l, r)
}

/// Whether at none of the places there are Left and Right cells that are surely the same.
pub fn are_different<N: Num>(places: &[(u32, u32)], parts: &[Part<Cell<N>>]) -> bool
    requires { AreSpread (outlines number_of parts.now) }
    ensures { result ≡ are_different N.ops (all_items parts.now) places.now }
{
    for p in places {
        if is_same_at(p.0, p.1, parts) {
            return false;
        }
    }
    true
}
