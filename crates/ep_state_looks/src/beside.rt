//! Two states beside each other.

ghost use Rattle.std.specs.Prelude.{◌≡◌, ◌≤◌, ◌+◌, ◌++◌, ◌∷◌, [], map, drop, not, length, IfOk, if◌then◌else◌};
ghost use Rattle.ep_cell_changes.specs.Tests.{AreInOrder};
ghost use Rattle.ep_reads.specs.Single.{without_like};
ghost use Rattle.ep_state_looks.specs.Looks.{from_cell, begins_like};

use ep_cell_rows::cell::copy_cell;
use ep_cell_rows::places::{comes_before, is_same_cell};
use ep_cell_rows::rows::push;
use ep_cells::Cell;
use ep_domain::Num;
use ep_int::Memory;
use ep_states::State;
use std::alloc::Global;

// The place of the first cell, from one on, that doesn't come before x.
fn from_cell<N: Num>(cells: &[&Cell<N>], at: usize, x: &Cell<N>) -> usize
    requires { at ≤ length cells.now }
    ensures within { result ≤ length cells.now }
    ensures rest { map (λ r. r.now) (drop result cells.now) ≡ from_cell x.now (map (λ r. r.now) (drop at cells.now)) }
{
    let mut at = at;
    while at < cells.len() && comes_before(cells[at], x) {
        at += 1;
    }
    at
}

fn is_like<N: Num>(cells: &[&Cell<N>], at: usize, x: &Cell<N>) -> bool
    ensures { result ≡ begins_like x.now (map (λ r. r.now) (drop at cells.now)) }
{
    match cells.get(at) {
        None => false,
        Some(y) => is_same_cell(*y, x),
    }
}

fn push_unless<N: Num>(out: &mut Vec<Cell<N>>, like: bool, x: &Cell<N>) -> Result<(), Memory>
    ensures { IfOk result (λ _. out.new.items ≡ out.old.items ++ (if not like then x.now ∷ [] else [])) }
{
    if like {
        Ok(())
    } else {
        push(out, copy_cell(x)?)
    }
}

fn lacked_among<N: Num>(
    alloc: Global,
    xs: &[&Cell<N>],
    ys: &[&Cell<N>],
) -> Result<Vec<Cell<N>>, Memory>
    requires first { AreInOrder (map (λ r. r.now) xs.now) }
    requires second { AreInOrder (map (λ r. r.now) ys.now) }
    ensures { IfOk result (λ v. v.items ≡ without_like (map (λ r. r.now) ys.now) (map (λ r. r.now) xs.now)) }
{
    let mut out = Vec::new(alloc);
    let mut at = 0;
    for x in xs {
        at = from_cell(ys, at, *x);
        push_unless(&mut out, is_like(ys, at, *x), *x)?;
    }
    Ok(out)
}

/// Of two states beside each other: their cells that have none like them in the other one, and how many both have.
#[derive(Drop)]
pub struct LackedCells<N> {
    pub left: Vec<Cell<N>>,
    pub right: Vec<Cell<N>>,
    pub count: usize,
}

/// Looks at all cells of both. Takes memory for two lists of them.
pub fn differences<N: Num>(a: &State<N>, b: &State<N>) -> Result<LackedCells<N>, Memory>
    ensures left { IfOk result (λ d. d.left.items ≡ without_like b.now.cells a.now.cells) }
    ensures right { IfOk result (λ d. d.right.items ≡ without_like a.now.cells b.now.cells) }
    ensures count { IfOk result (λ d. d.count ≡ length a.now.cells + length b.now.cells) }
{
    a.model();
    b.model();
    let xs = a.all()?;
    let ys = b.all()?;
    let left = lacked_among(a.allocator(), &xs, &ys)?;
    let right = lacked_among(a.allocator(), &ys, &xs)?;
    Ok(LackedCells {
        left,
        right,
        count: xs.len() + ys.len(),
    })
}
