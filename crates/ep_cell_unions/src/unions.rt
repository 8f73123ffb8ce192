//! The cells of two states put together, part by part.

ghost use Rattle.std.specs.Prelude.{◌≡◌, ◌≤◌, List, length, drop, IfOk, IfSome};
ghost use Rattle.ep_cells.specs.declared.cell.Cell.{Cell};
ghost use Rattle.ep_cells.specs.Both.{value_of_both, cells_of_both};
ghost use Rattle.ep_cell_rows.specs.Parts.{united as of_union};
ghost use Rattle.ep_shared_parts.specs.Spread.{outlines, all_items};
ghost use Rattle.ep_shared_parts.specs.Mentions.{number_of};
ghost use Rattle.ep_shared_parts.specs.Walks.{IsAt, rest};

use crate::staying::{cell_stays, stays_as};
use ep_cell_rows::rows::cell_of_both;
use ep_cell_rows::values::Union;
use ep_cells::Cell;
use ep_domain::Num;
use ep_int::Memory;
use ep_shared_parts::parts::{Part, push};
use ep_shared_parts::walks::{At, next};
use std::alloc::Global;
use std::rc::Rc;

// How far cells have the values of two others, of which the first stays, and stay, and where the other state goes on.
fn behind_run<N: Num>(
    union: Union,
    first: &Cell<N>,
    second: &Cell<N>,
    cells: &[Cell<N>],
    from: usize,
    others: &[Part<Cell<N>>],
    at: At,
) -> (usize, At)
    requires within { from ≤ length cells.now }
    requires at { IsAt at others.now }
    requires stays { value_of_both (of_union N.ops union) first.now.value second.now.value ≡ first.now.value }
    ensures from { from ≤ result.0 }
    ensures within { result.0 ≤ length cells.now }
    ensures at { IsAt result.1 others.now }
    ensures rest { (zs : List (Cell N)) → rest at others.now ≡ drop from zs
        → rest result.1 others.now ≡ drop result.0 zs }
    ensures stay { cells_of_both (of_union N.ops union) (drop result.0 cells.now) (rest result.1 others.now)
        ≡ drop result.0 cells.now
        → cells_of_both (of_union N.ops union) (drop from cells.now) (rest at others.now) ≡ drop from cells.now }
{
    let mut i = from;
    let mut behind = at;
    while i < cells.len() {
        let Some(y) = next(others, behind) else {
            return (i, behind);
        };
        if !stays_as(union, first, second, &cells[i], y.0) {
            return (i, behind);
        }
        i += 1;
        behind = y.1;
    }
    (i, behind)
}

// Where the other state goes on behind these cells, if all of them stay.
fn behind_staying<N: Num>(
    union: Union,
    cells: &[Cell<N>],
    others: &[Part<Cell<N>>],
    at: At,
) -> Result<Option<At>, Memory>
    requires { IsAt at others.now }
    ensures at { IfOk result (λ o. IfSome o (λ b. IsAt b others.now)) }
    ensures rest { IfOk result (λ o. IfSome o (λ b. rest b others.now ≡ drop (length cells.now) (rest at others.now))) }
    ensures stay { IfOk result (λ o. IfSome o (λ b. cells_of_both (of_union N.ops union) cells.now (rest at others.now)
        ≡ cells.now)) }
{
    let mut i = 0;
    let mut behind = at;
    while i < cells.len() {
        let Some(y) = next(others, behind) else {
            return Ok(None);
        };
        if !cell_stays(union, &cells[i], y.0)? {
            return Ok(None);
        }
        let run = behind_run(union, &cells[i], y.0, cells, i + 1, others, y.1);
        i = run.0;
        behind = run.1;
    }
    Ok(Some(behind))
}

// The cells with those of the other state from a place on, and where that goes on.
fn cells_made<N: Num>(
    alloc: Global,
    union: Union,
    cells: &[Cell<N>],
    others: &[Part<Cell<N>>],
    at: At,
) -> Result<(Vec<Cell<N>>, At), Memory>
    requires at { IsAt at others.now }
    requires enough { length cells.now ≤ length (rest at others.now) }
    ensures at { IfOk result (λ r. IsAt r.1 others.now) }
    ensures rest { IfOk result (λ r. rest r.1 others.now ≡ drop (length cells.now) (rest at others.now)) }
    ensures items { IfOk result (λ r. r.0.items
        ≡ cells_of_both (of_union N.ops union) cells.now (rest at others.now)) }
{
    let mut out = Vec::with_capacity(alloc, cells.len()).map_err(|_| Memory)?;
    let mut behind = at;
    for x in cells {
        match next(others, behind) {
            None => return Ok((out, behind)),
            Some(y) => {
                push(&mut out, cell_of_both(union, x, y.0)?)?;
                behind = y.1;
            }
        }
    }
    Ok((out, behind))
}

fn part_made<N: Num>(
    alloc: Global,
    union: Union,
    part: &Part<Cell<N>>,
    others: &[Part<Cell<N>>],
    at: At,
) -> Result<(Part<Cell<N>>, At), Memory>
    requires at { IsAt at others.now }
    requires enough { length part.now.items.value.items ≤ length (rest at others.now) }
    ensures at { IfOk result (λ r. IsAt r.1 others.now) }
    ensures rest { IfOk result (λ r. rest r.1 others.now
        ≡ drop (length part.now.items.value.items) (rest at others.now)) }
    ensures start { IfOk result (λ r. r.0.start ≡ part.now.start) }
    ensures items { IfOk result (λ r. r.0.items.value.items
        ≡ cells_of_both (of_union N.ops union) part.now.items.value.items (rest at others.now)) }
{
    let made = cells_made(alloc, union, &part.items, others, at)?;
    let items = Rc::new(alloc, made.0).map_err(|_| Memory)?;
    Ok((
        Part {
            start: part.start,
            items,
        },
        made.1,
    ))
}

fn shared_part<N: Num>(part: &Part<Cell<N>>) -> Result<Part<Cell<N>>, Memory>
    ensures start { IfOk result (λ p. p.start ≡ part.now.start) }
    ensures items { IfOk result (λ p. p.items.value.items ≡ part.now.items.value.items) }
{
    Ok(Part {
        start: part.start,
        items: part.items.clone().map_err(|_| Memory)?,
    })
}

fn part_of_both<N: Num>(
    alloc: Global,
    union: Union,
    part: &Part<Cell<N>>,
    others: &[Part<Cell<N>>],
    at: At,
) -> Result<(Part<Cell<N>>, At), Memory>
    requires at { IsAt at others.now }
    requires enough { length part.now.items.value.items ≤ length (rest at others.now) }
    ensures at { IfOk result (λ r. IsAt r.1 others.now) }
    ensures rest { IfOk result (λ r. rest r.1 others.now
        ≡ drop (length part.now.items.value.items) (rest at others.now)) }
    ensures start { IfOk result (λ r. r.0.start ≡ part.now.start) }
    ensures items { IfOk result (λ r. r.0.items.value.items
        ≡ cells_of_both (of_union N.ops union) part.now.items.value.items (rest at others.now)) }
{
    match behind_staying(union, &part.items, others, at)? {
        Some(behind) => {
            let same = shared_part(part)?;
            Ok((same, behind))
        }
        None => {
            let made = part_made(alloc, union, part, others, at)?;
            Ok(made)
        }
    }
}

/// The parts with the other state's cells joined or widened in, cell by cell. A part all of whose cells stay is shared.
/// Looks at each cell where it stands.
pub fn parts_of_both<N: Num>(
    alloc: Global,
    union: Union,
    parts: &[Part<Cell<N>>],
    others: &[Part<Cell<N>>],
) -> Result<Vec<Part<Cell<N>>>, Memory>
    requires { length (all_items parts.now) ≡ length (all_items others.now) }
    ensures items { IfOk result (λ v. all_items v.items
        ≡ cells_of_both (of_union N.ops union) (all_items parts.now) (all_items others.now)) }
    ensures outlines { IfOk result (λ v. outlines number_of v.items ≡ outlines number_of parts.now) }
{
    let mut out = Vec::with_capacity(alloc, parts.len()).map_err(|_| Memory)?;
    let mut at = At { part: 0, item: 0 };
    for part in parts {
        let both = part_of_both(alloc, union, part, others, at)?;
        at = both.1;
        push(&mut out, both.0)?;
    }
    Ok(out)
}
