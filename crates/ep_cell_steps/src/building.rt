//! Cells in parts, and the index of what their forms mention.

ghost use Rattle.std.specs.Prelude.{◌≡◌, ◌≤◌, ◌++◌, ◌∷◌, [], IfOk, OnOk};
ghost use Rattle.ep_cells.specs.States.{AreCells};
ghost use Rattle.ep_shared_parts.specs.Spread.{outlines, all_items, AreSpread};
ghost use Rattle.ep_shared_parts.specs.Mentions.{number_of, number_of_use, IsNoted, AreIndexed};
ghost use Rattle.ep_shared_parts.specs.declared.uses.Use.{Use};
ghost use Rattle.ep_cell_steps.specs.PartsInvariant.{IsIndexed};
ghost use Rattle.ep_cell_steps.specs.Opened.{IsOpen};

use ep_cells::Cell;
use ep_domain::Num;
use ep_int::{Memory, Model};
use ep_shared_parts::numbers::number_at;
use ep_shared_parts::parts::{Part, push};
use ep_shared_parts::uses::{Use, note_form};
use std::alloc::Global;
use std::rc::Rc;

// A part that is made with others takes so many cells, and those that begin where the last of them does.
const EACH: usize = 64;

// The last part so far, to which cells may come, and the number of the last of them.
#[derive(Drop)]
struct Open<N> {
    start: u64,
    last: u64,
    cells: Vec<Cell<N>>,
}

fn with_room<N: Num>(alloc: Global, cells: usize) -> Result<Vec<Cell<N>>, Memory>
    ensures { IfOk result (λ v. v.items ≡ []) }
{
    Vec::with_capacity(alloc, cells).map_err(|_| Memory)
}

fn closed<N: Num>(alloc: Global, growing: Open<N>) -> Result<Part<Cell<N>>, Memory>
    ensures start { IfOk result (λ p. p.start ≡ growing.start) }
    ensures items { IfOk result (λ p. p.items.value.items ≡ growing.cells.items) }
{
    let start = u128::from(growing.start);
    let items = Rc::new(alloc, growing.cells).map_err(|_| Memory)?;
    Ok(Part { start, items })
}

// The part for a cell of this number. One that is full is closed, if its last cell begins earlier.
fn open_for<N: Num>(
    alloc: Global,
    parts: &mut Vec<Part<Cell<N>>>,
    growing: Open<N>,
    k: u64,
) -> Result<Open<N>, Memory>
    requires open { IsOpen parts.old.items growing.start growing.last growing.cells.items }
    requires rises { growing.last ≤ k }
    ensures open { IfOk result (λ o. IsOpen parts.new.items o.start o.last o.cells.items) }
    ensures rises { IfOk result (λ o. o.last ≤ k) }
    ensures items { IfOk result (λ o. all_items parts.new.items ++ o.cells.items
        ≡ all_items parts.old.items ++ growing.cells.items) }
{
    if growing.cells.len() < EACH {
        return Ok(growing);
    }
    if k <= growing.last {
        return Ok(growing);
    }
    let part = closed(alloc, growing)?;
    push(parts, part)?;
    Ok(Open {
        start: k,
        last: k,
        cells: with_room(alloc, EACH)?,
    })
}

fn with_cell<N: Num>(
    alloc: Global,
    parts: &mut Vec<Part<Cell<N>>>,
    growing: Open<N>,
    c: Cell<N>,
) -> Result<Open<N>, Memory>
    requires open { IsOpen parts.old.items growing.start growing.last growing.cells.items }
    requires rises { growing.last ≤ number_of c }
    ensures open { IfOk result (λ o. IsOpen parts.new.items o.start o.last o.cells.items) }
    ensures last { IfOk result (λ o. o.last ≡ number_of c) }
    ensures items { IfOk result (λ o. all_items parts.new.items ++ o.cells.items
        ≡ (all_items parts.old.items ++ growing.cells.items) ++ c ∷ []) }
{
    let last = number_at(c.block, c.offset);
    let growing = open_for(alloc, parts, growing, last)?;
    let start = growing.start;
    let mut cells = growing.cells;
    push(&mut cells, c)?;
    Ok(Open { start, last, cells })
}

/// The cells of a state in parts of some 64. Moves each of them once.
pub fn spread<N: Num>(
    alloc: Global,
    model: Model,
    cells: Vec<Cell<N>>,
) -> Result<Vec<Part<Cell<N>>>, Memory>
    requires { AreCells model cells.items }
    ensures spread { IfOk result (λ v. AreSpread (outlines number_of v.items)) }
    ensures items { IfOk result (λ v. all_items v.items ≡ cells.items) }
{
    let _model = model;
    let mut parts = Vec::new(alloc);
    let mut growing = Open {
        start: 0,
        last: 0,
        cells: with_room(alloc, cells.len().min(EACH))?,
    };
    for c in cells {
        let next = with_cell(alloc, &mut parts, growing, c)?;
        growing = next;
    }
    let part = closed(alloc, growing)?;
    push(&mut parts, part)?;
    Ok(parts)
}

/// Notes what the form of a cell mentions. Nothing is forgotten, whatever the answer.
pub fn note_cell<N: Num>(
    alloc: Global,
    uses: &mut Vec<Part<Use>>,
    c: &Cell<N>,
) -> Result<(), Memory>
    requires { AreSpread (outlines number_of_use uses.old.items) }
    ensures spread { AreSpread (outlines number_of_use uses.new.items) }
    ensures keeps { (v : Use) → IsNoted (all_items uses.old.items) v → IsNoted (all_items uses.new.items) v }
    ensures noted { OnOk result (IsIndexed (all_items uses.new.items) c.now) }
{
    match &c.form {
        None => Ok(()),
        Some(f) => {
            note_form(
                alloc,
                uses,
                f.form().segments(),
                number_at(c.block, c.offset),
            )?;
            Ok(())
        }
    }
}

/// What the forms of cells mention.
pub fn index<N: Num>(alloc: Global, cells: &[Cell<N>]) -> Result<Vec<Part<Use>>, Memory>
    ensures spread { IfOk result (λ v. AreSpread (outlines number_of_use v.items)) }
    ensures indexed { IfOk result (λ v. AreIndexed (all_items v.items) cells.now) }
{
    let mut uses = Vec::new(alloc);
    for c in cells {
        note_cell(alloc, &mut uses, c)?;
    }
    Ok(uses)
}
