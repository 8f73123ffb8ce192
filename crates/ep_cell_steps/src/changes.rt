//! Steps of cells in parts, with new cells.

ghost use Rattle.std.specs.Prelude.{◌≡◌, ◌≤◌, [], IfOk, OnOk};
ghost use Rattle.ep_cells.specs.Cells.{place_of as the_place};
ghost use Rattle.ep_cells.specs.States.{AreCells};
ghost use Rattle.ep_shared_parts.specs.declared.uses.Use.{Use};
ghost use Rattle.ep_shared_parts.specs.Spread.{outlines, all_items, AreSpread};
ghost use Rattle.ep_shared_parts.specs.Mentions.{number_of, number_of_use, IsNoted, AreIndexed};
ghost use Rattle.ep_shared_parts.specs.Plans.{AreEdits, KeepsEdits};
ghost use Rattle.ep_bicells.specs.Steps.{left_by_step, fate_of_step, after_step, changed_by};
ghost use Rattle.ep_cell_steps.specs.PartsInvariant.{AreKept};
ghost use Rattle.ep_cell_steps.specs.Left.{IsLeft};
ghost use Rattle.ep_cell_steps.specs.Planned.{IsAlone, IsReached, AreReached, FindsTargets, AreElsewhere};

use crate::building::note_cell;
use crate::pointers::{numbers_of_block, push_pointers};
use crate::putting::put_all;
use ep_bicells::cells::reach;
use ep_bicells::changes::{Step, edits_of_users};
use ep_cell_rows::places::place_of;
use ep_cells::Cell;
use ep_domain::Num;
use ep_int::{Memory, Model};
use ep_shared_parts::numbers::number_at;
use ep_shared_parts::parts::{Edit, Part, install, shared, span};
use ep_shared_parts::uses::Use;
use std::alloc::Global;

/// Cells in parts, and what their forms mention.
#[derive(Drop)]
pub struct Parts<N> {
    pub cells: Vec<Part<Cell<N>>>,
    pub uses: Vec<Part<Use>>,
}

fn numbers_of_cell<N: Num>(x: &Cell<N>) -> (u64, u64)
    ensures rising { result.0 ≤ result.1 }
    ensures alone { IsAlone x.now result.0 result.1 }
{
    let k = number_at(x.block, x.offset);
    (k, k)
}

fn numbers_about<N: Num>(model: Model, c: &Cell<N>) -> (u64, u64)
    ensures rising { result.0 ≤ result.1 }
    ensures reached { IsReached (the_place model c.now) result.0 result.1 }
{
    let place = place_of(model, c);
    let range = reach(&place);
    range
}

// From which number and up to which one a step may touch cells, but for pointers into a killed block.
fn range<N: Num>(step: &Step<N>, model: Model) -> (u64, u64)
    ensures rising { result.0 ≤ result.1 }
    ensures reached { AreReached model step.now result.0 result.1 }
{
    match step {
        Step::Write(p) => reach(p),
        Step::WeakWrite(c, _) => numbers_about(model, c),
        Step::Kill(_, block) => numbers_of_block(*block),
        Step::Blur(p) => reach(p),
        Step::Split(_, x) => numbers_of_cell(x),
        Step::Cross(x) => numbers_of_cell(x),
        Step::Unshare(p) => reach(p),
        Step::Lack(x) => numbers_of_cell(x),
        Step::Reshare(l, _) => numbers_of_cell(l),
    }
}

// Adds the parts with pointers into a killed block.
fn push_targets<N: Num>(
    out: &mut Vec<Edit<Cell<N>>>,
    step: &Step<N>,
    model: Model,
    parts: &[Part<Cell<N>>],
) -> Result<(), Memory>
    requires { AreEdits (after_step N.ops model step.now) parts.now out.old.items }
    ensures edits { OnOk result (AreEdits (after_step N.ops model step.now) parts.now out.new.items) }
    ensures keeps { OnOk result (KeepsEdits out.old.items out.new.items) }
    ensures targets { OnOk result (FindsTargets step.now parts.now out.new.items) }
{
    match step {
        Step::Write(_) => Ok(()),
        Step::WeakWrite(_, _) => Ok(()),
        Step::Kill(_, block) => push_pointers(out, step, model, parts, *block),
        Step::Blur(_) => Ok(()),
        Step::Split(_, _) => Ok(()),
        Step::Cross(_) => Ok(()),
        Step::Unshare(_) => Ok(()),
        Step::Lack(_) => Ok(()),
        Step::Reshare(_, _) => Ok(()),
    }
}

// The parts that change apart from those in the step's range, as they are after it.
fn edits_elsewhere<N: Num>(
    alloc: Global,
    model: Model,
    parts: &[Part<Cell<N>>],
    uses: &[Part<Use>],
    step: &Step<N>,
    range: (u64, u64),
) -> Result<Vec<Edit<Cell<N>>>, Memory>
    requires spread { AreSpread (outlines number_of parts.now) }
    requires uses { AreSpread (outlines number_of_use uses.now) }
    requires rising { range.0 ≤ range.1 }
    ensures { IfOk result (λ v. AreElsewhere N.ops model step.now range.0 range.1 (all_items uses.now) parts.now
        v.items) }
{
    let mut edits = edits_of_users(alloc, step, model, parts, uses, range)?;
    push_targets(&mut edits, step, model, parts)?;
    Ok(edits)
}

// What is left of the cells. Parts in the step's range change where they stand.
fn left_by_step<N: Num>(
    alloc: Global,
    model: Model,
    parts: Vec<Part<Cell<N>>>,
    uses: &[Part<Use>],
    step: &Step<N>,
) -> Result<Vec<Part<Cell<N>>>, Memory>
    requires { AreKept model parts.items uses.now }
    ensures { IfOk result (λ v. IsLeft (left_by_step N.ops model step.now) (fate_of_step model step.now) parts.items
        v.items) }
{
    let mut left = parts;
    let range = range(step, model);
    let edits = edits_elsewhere(alloc, model, &left, uses, step, range)?;
    let span = span(&left, range.0, range.1);
    step.change_parts(alloc, model, &mut left, span.0, span.1, &edits)?;
    install(&mut left, edits);
    Ok(left)
}

/// No new cells.
pub fn no_cells<N: Num>(alloc: Global) -> Vec<Cell<N>>
    ensures { result.items ≡ [] }
{
    Vec::new(alloc)
}

/// Notes what the forms of cells mention. Nothing is forgotten, whatever the answer.
pub fn note_all<N: Num>(
    alloc: Global,
    uses: &mut Vec<Part<Use>>,
    cells: &[Cell<N>],
) -> Result<(), Memory>
    requires { AreSpread (outlines number_of_use uses.old.items) }
    ensures spread { AreSpread (outlines number_of_use uses.new.items) }
    ensures keeps { (v : Use) → IsNoted (all_items uses.old.items) v → IsNoted (all_items uses.new.items) v }
    ensures indexed { OnOk result (AreIndexed (all_items uses.new.items) cells.now) }
{
    for c in cells {
        note_cell(alloc, uses, c)?;
    }
    Ok(())
}

/// The parts after a step with new cells. Costs the parts that it touches, and a search for each new cell.
pub fn after<N: Num>(
    alloc: Global,
    model: Model,
    before: Parts<N>,
    step: &Step<N>,
    new: &[Cell<N>],
) -> Result<Parts<N>, Memory>
    requires kept { AreKept model before.cells.items before.uses.items }
    requires cells { AreCells model (changed_by N.ops model step.now new.now (all_items before.cells.items)) }
    ensures items { IfOk result (λ v. all_items v.cells.items
        ≡ changed_by N.ops model step.now new.now (all_items before.cells.items)) }
    ensures kept { IfOk result (λ v. AreKept model v.cells.items v.uses.items) }
{
    let mut uses = before.uses;
    let mut cells = left_by_step(alloc, model, before.cells, &uses, step)?;
    let made = step.all_reformed(alloc, model, new)?;
    note_all(alloc, &mut uses, &made)?;
    put_all(alloc, &mut cells, made)?;
    Ok(Parts { cells, uses })
}

/// The parts after a step with new cells. Takes a count for each part.
pub fn changed<N: Num>(
    alloc: Global,
    model: Model,
    parts: &[Part<Cell<N>>],
    uses: &[Part<Use>],
    step: &Step<N>,
    new: &[Cell<N>],
) -> Result<Parts<N>, Memory>
    requires kept { AreKept model parts.now uses.now }
    requires cells { AreCells model (changed_by N.ops model step.now new.now (all_items parts.now)) }
    ensures items { IfOk result (λ v. all_items v.cells.items
        ≡ changed_by N.ops model step.now new.now (all_items parts.now)) }
    ensures kept { IfOk result (λ v. AreKept model v.cells.items v.uses.items) }
{
    let before = Parts {
        cells: shared(alloc, parts)?,
        uses: shared(alloc, uses)?,
    };
    after(alloc, model, before, step, new)
}
