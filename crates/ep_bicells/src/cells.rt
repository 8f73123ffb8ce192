//! Cells in parts.

ghost use Rattle.std.specs.Prelude.{◌≡◌, ℕ, ◌+◌, ◌-◌, ◌<◌, ◌≤◌, ◌++◌, map, IfOk, OnOk, false};
ghost use Rattle.std.specs.Option.{option_map, option_map_or};
ghost use Rattle.ep_cells.specs.Look.{cell_at, is_some_partly_in};
ghost use Rattle.ep_cells.specs.Both.{is_cell_within, cell_like, are_within};
ghost use Rattle.ep_cells.specs.States.{AreCells};
ghost use Rattle.ep_shared_parts.specs.Spread.{outlines, all_items, AreSpread};
ghost use Rattle.ep_shared_parts.specs.Mentions.{number_at, number_of};
ghost use Rattle.ep_bicells.specs.Distinct.{AreDistinct};
ghost use Rattle.ep_shared_parts.specs.Walks.{IsAt};

use ep_bitslice::Side;
use ep_cell_rows::cell::copy_cell;
use ep_cell_rows::places::is_same_cell;
use ep_cell_rows::rows;
use ep_cells::{ByteRange, Cell};
use ep_domain::Num;
use ep_int::{Memory, Model};
use ep_shared_parts::numbers::number_at;
use ep_shared_parts::parts::{Part, window};
use ep_shared_parts::walks::{At, next};
use std::alloc::Global;

/// From which number and up to which one cells may touch a place.
pub fn reach(p: &ByteRange) -> (u64, u64)
    ensures rising { result.0 ≤ result.1 }
    ensures from { result.0 ≡ number_at p.now.block (p.now.offset - 7) }
    ensures last { (q : ℕ) → q < p.now.offset + p.now.bytes → q < 4294967296 → number_at p.now.block q ≤ result.1 }
{
    (
        number_at(p.block, p.offset.saturating_sub(7)),
        number_at(p.block, p.offset.saturating_add(p.bytes)),
    )
}

fn cell_in<N: Num>(
    model: Model,
    side: Side,
    block: u32,
    byte: u32,
    parts: &[Part<Cell<N>>],
) -> Option<&Cell<N>>
    ensures { option_map (λ c. c.now) result ≡ cell_at model side block byte (all_items parts.now) }
{
    for part in parts {
        if let Some(c) = rows::cell_at(model, side, block, byte, &part.items) {
            return Some(c);
        }
    }
    None
}

/// The cell of that side, or Shared, that has the byte.
pub fn cell_at<N: Num>(
    model: Model,
    side: Side,
    block: u32,
    byte: u32,
    parts: &[Part<Cell<N>>],
) -> Option<&Cell<N>>
    requires { AreSpread (outlines number_of parts.now) }
    ensures { option_map (λ c. c.now) result ≡ cell_at model side block byte (all_items parts.now) }
{
    let from = number_at(block, byte.saturating_sub(7));
    cell_in(
        model,
        side,
        block,
        byte,
        window(parts, from, number_at(block, byte)),
    )
}

fn is_some_partly<N: Num>(model: Model, p: &ByteRange, parts: &[Part<Cell<N>>]) -> bool
    ensures { result ≡ is_some_partly_in model p.now (all_items parts.now) }
{
    for part in parts {
        if rows::is_some_partly_in(model, p, &part.items) {
            return true;
        }
    }
    false
}

/// Whether some cell has bytes in the place, and others.
pub fn is_some_partly_in<N: Num>(model: Model, p: &ByteRange, parts: &[Part<Cell<N>>]) -> bool
    requires spread { AreSpread (outlines number_of parts.now) }
    requires cells { AreCells model (all_items parts.now) }
    ensures { result ≡ is_some_partly_in model p.now (all_items parts.now) }
{
    let (from, last) = reach(p);
    is_some_partly(model, p, window(parts, from, last))
}

/// The cells of all parts.
pub fn copied<N: Num>(alloc: Global, parts: &[Part<Cell<N>>]) -> Result<Vec<Cell<N>>, Memory>
    ensures { IfOk result (λ v. v.items ≡ all_items parts.now) }
{
    let mut out = Vec::new(alloc);
    for c in all(alloc, parts)? {
        out.push(copy_cell(c)?).map_err(|_| Memory)?;
    }
    Ok(out)
}

fn push_all<'a, N: Num>(out: &mut Vec<&'a Cell<N>>, cells: &'a [Cell<N>]) -> Result<(), Memory>
    ensures { OnOk result (map (λ r. r.now) out.new.items ≡ map (λ r. r.now) out.old.items ++ cells.now) }
{
    out.reserve(cells.len()).map_err(|_| Memory)?;
    for c in cells {
        out.push(c).map_err(|_| Memory)?;
    }
    Ok(())
}

/// The cells of all parts, where they stand.
pub fn all<'a, N: Num>(
    alloc: Global,
    parts: &'a [Part<Cell<N>>],
) -> Result<Vec<&'a Cell<N>>, Memory>
    ensures { IfOk result (λ v. map (λ r. r.now) v.items ≡ all_items parts.now) }
{
    let mut out = Vec::new(alloc);
    for part in parts {
        push_all(&mut out, &part.items)?;
    }
    Ok(out)
}

fn like<'a, N: Num>(cells: &'a [Cell<N>], y: &Cell<N>) -> Option<&'a Cell<N>>
    ensures { option_map (λ c. c.now) result ≡ cell_like y.now cells.now }
{
    for x in cells {
        if is_same_cell(x, y) {
            return Some(x);
        }
    }
    None
}

fn like_in<'a, N: Num>(parts: &'a [Part<Cell<N>>], y: &Cell<N>) -> Option<&'a Cell<N>>
    ensures { option_map (λ c. c.now) result ≡ cell_like y.now (all_items parts.now) }
{
    for part in parts {
        if let Some(x) = like(&part.items, y) {
            return Some(x);
        }
    }
    None
}

// The cell of the same side, place and type.
fn found_like<'a, N: Num>(parts: &'a [Part<Cell<N>>], y: &Cell<N>) -> Option<&'a Cell<N>>
    requires { AreSpread (outlines number_of parts.now) }
    ensures { option_map (λ c. c.now) result ≡ cell_like y.now (all_items parts.now) }
{
    let at = number_at(y.block, y.offset);
    like_in(window(parts, at, at), y)
}

fn has_within<N: Num>(xs: &[Part<Cell<N>>], y: &Cell<N>) -> bool
    requires { AreSpread (outlines number_of xs.now) }
    ensures { result ≡ option_map_or (λ x. is_cell_within N.ops x y.now) (cell_like y.now (all_items xs.now)) false }
{
    match found_like(xs, y) {
        None => false,
        Some(x) => rows::is_cell_within(x, y),
    }
}

// Whether the first cells have one within, which is expected at a place, and the place where the next one is.
fn has_at<N: Num>(xs: &[Part<Cell<N>>], at: At, y: &Cell<N>) -> (bool, At)
    requires spread { AreSpread (outlines number_of xs.now) }
    requires distinct { AreDistinct (all_items xs.now) }
    requires at { IsAt at xs.now }
    ensures value { result.0
        ≡ option_map_or (λ x. is_cell_within N.ops x y.now) (cell_like y.now (all_items xs.now)) false }
    ensures at { IsAt result.1 xs.now }
{
    let Some(x) = next(xs, at) else {
        return (has_within(xs, y), at);
    };
    if is_same_cell(x.0, y) {
        return (rows::is_cell_within(x.0, y), x.1);
    }
    (has_within(xs, y), at)
}

/// Whether the first cells have each of the second, within it. Each is expected behind the one before it, and looked
/// for where it isn't there.
pub fn are_within<N: Num>(xs: &[Part<Cell<N>>], ys: &[Part<Cell<N>>]) -> bool
    requires spread { AreSpread (outlines number_of xs.now) }
    requires distinct { AreDistinct (all_items xs.now) }
    ensures { result ≡ are_within N.ops (all_items xs.now) (all_items ys.now) }
{
    let mut a = At { part: 0, item: 0 };
    let mut b = At { part: 0, item: 0 };
    loop {
        let Some(y) = next(ys, b) else {
            return true;
        };
        let found = has_at(xs, a, y.0);
        if !found.0 {
            return false;
        }
        a = found.1;
        b = y.1;
    }
}
