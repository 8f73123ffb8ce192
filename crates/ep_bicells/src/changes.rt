//! Changes of the cells that touch a place, and of the forms that mention them.

ghost use Rattle.std.specs.Prelude.{◌≡◌, ℕ, ◌<◌, ◌≤◌, true, nat_eq, length, map, IfOk, OnOk, IsTrue};
ghost use Rattle.ep_cells.specs.Forms.{reformed};
ghost use Rattle.std.specs.List.{list_any};
ghost use Rattle.ep_shared_parts.specs.Spread.{outlines, all_items, AreSpread};
ghost use Rattle.ep_shared_parts.specs.declared.uses.Use.{Use};
ghost use Rattle.ep_shared_parts.specs.Mentions.{number_of, number_of_use, users_in, IsNoted};
ghost use Rattle.ep_shared_parts.specs.Plans.{is_edited, AreEdits, KeepsEdits, Covers};
ghost use Rattle.ep_bicells.specs.Steps.{fate_of_step, after_step, IsPlan};

use crate::alone;
use crate::blur::left_by_blur;
use crate::unsharing::left_by_unsharing;
use ep_bitslice::Side;
use ep_cell_changes::kill::left_by_kill;
use ep_cell_changes::reshare::{change_by_reshare, left_by_reshare};
use ep_cell_changes::weak::left_by_weak_write;
use ep_cell_rows::change::Change;
use ep_cell_rows::places::{place_of, side_without};
use ep_cell_rows::rows;
use ep_cells::{ByteRange, Cell};
use ep_domain::Num;
use ep_int::{Memory, Model};
use ep_shared_parts::parts::{Edit, Part, push, span};
use ep_shared_parts::uses::{Use, users};
use std::alloc::Global;
use std::rc::Rc;

/// A change of cells, one by one.
#[derive(Drop)]
pub enum Step<N> {
    /// A place is written.
    Write(ByteRange),
    /// A cell may be written. Set where Shared cells stay.
    WeakWrite(Cell<N>, bool),
    /// A block is killed on a side.
    Kill(Side, u32),
    /// A place may have been written in whatever way.
    Blur(ByteRange),
    /// A cell is split on a side: it is gone there, and so are forms that mention it, but those of a Shared cell
    /// mention what stays of it.
    Split(Side, Cell<N>),
    /// A cell is crossed: it is gone. Mentions of a byte go on as mentions of it, or of its Left part.
    Cross(Cell<N>),
    /// Shared cells that meet a place, of whatever side, come apart, and mentions of them become mentions of their
    /// Left parts.
    Unshare(ByteRange),
    /// A cell goes, and so do forms that mention it.
    Lack(Cell<N>),
    /// A Left and a Right cell go, and mentions of them become mentions of the Shared one, or go where it may be
    /// undefined.
    Reshare(Cell<N>, Cell<N>),
}

impl<N: Num> Step<N> {
    /// Cells after the step.
    pub fn after(
        &self,
        alloc: Global,
        model: Model,
        cells: &[Cell<N>],
    ) -> Result<Vec<Cell<N>>, Memory>
        ensures { IfOk result (λ v. v.items ≡ after_step N.ops model self.now cells.now) }
    {
        match self {
            Step::Write(p) => rows::left_by_write(alloc, model, *p, cells),
            Step::WeakWrite(c, stays) => left_by_weak_write(alloc, model, c, *stays, cells),
            Step::Kill(side, block) => left_by_kill(alloc, *side, *block, cells),
            Step::Blur(p) => left_by_blur(alloc, model, *p, cells),
            Step::Split(side, x) => alone::left_by_split(alloc, *side, x, cells),
            Step::Cross(x) => alone::left_by_crossing(alloc, x, cells),
            Step::Unshare(p) => left_by_unsharing(alloc, model, *p, cells),
            Step::Lack(x) => alone::left_without(alloc, x, None, cells),
            Step::Reshare(l, r) => left_by_reshare(alloc, change_by_reshare(l, r), l, cells),
        }
    }

    /// Cells with their forms after the step.
    pub fn all_reformed(
        &self,
        alloc: Global,
        model: Model,
        cells: &[Cell<N>],
    ) -> Result<Vec<Cell<N>>, Memory>
        ensures { IfOk result (λ v. v.items ≡ map (reformed (fate_of_step model self.now)) cells.now) }
    {
        match self {
            Step::Write(p) => rows::all_reformed(alloc, Change::Write(*p), cells),
            Step::WeakWrite(c, _) => rows::all_reformed(
                alloc,
                Change::WeakWrite(place_of(model, c)),
                cells,
            ),
            Step::Kill(side, block) => rows::all_reformed(
                alloc,
                Change::Kill(*side, *block),
                cells,
            ),
            Step::Blur(p) => rows::all_reformed(alloc, Change::WeakWrite(*p), cells),
            Step::Split(side, x) => alone::all_reformed(
                alloc,
                x,
                side_without(*side, x.side),
                cells,
            ),
            Step::Cross(x) => alone::all_reformed_by_crossing(alloc, x, cells),
            Step::Unshare(p) => rows::all_reformed(alloc, Change::Unshare(*p), cells),
            Step::Lack(x) => alone::all_reformed(alloc, x, None, cells),
            Step::Reshare(l, r) => rows::all_reformed(alloc, change_by_reshare(l, r), cells),
        }
    }

    /// A part after the step.
    pub fn part_after(
        &self,
        alloc: Global,
        model: Model,
        part: &Part<Cell<N>>,
    ) -> Result<Part<Cell<N>>, Memory>
        ensures start { IfOk result (λ p. p.start ≡ part.now.start) }
        ensures items { IfOk result (λ p. p.items.value.items
            ≡ after_step N.ops model self.now part.now.items.value.items) }
    {
        let cells = self.after(alloc, model, &part.items)?;
        Ok(Part {
            start: part.start,
            items: Rc::new(alloc, cells).map_err(|_| Memory)?,
        })
    }
}

// So many edits are all looked at.
const FEW: usize = 8;

/// Whether the part at this index is edited. Looks at all edits.
pub fn is_edited<N: Num>(edits: &[Edit<Cell<N>>], i: usize) -> bool
    ensures { result ≡ is_edited i edits.now }
{
    edits.iter().any(|e| e.at == i)
}

fn is_last<N: Num>(edits: &[Edit<Cell<N>>], i: usize) -> bool
    ensures { IsTrue result → is_edited i edits.now ≡ true }
{
    if edits.is_empty() {
        return false;
    }
    edits[edits.len() - 1].at == i
}

// Whether the part at this index is edited, as far as a short look tells: where there are many edits, at the last.
fn is_seen<N: Num>(edits: &[Edit<Cell<N>>], i: usize) -> bool
    ensures { IsTrue result → is_edited i edits.now ≡ true }
{
    if edits.len() <= FEW {
        is_edited(edits, i)
    } else {
        is_last(edits, i)
    }
}

/// Adds the part at this index as it is after the step, if it isn't there. Where there are many edits it may be added
/// again, unless it is the last.
pub fn push_edit<N: Num>(
    out: &mut Vec<Edit<Cell<N>>>,
    step: &Step<N>,
    model: Model,
    parts: &[Part<Cell<N>>],
    i: usize,
) -> Result<(), Memory>
    requires within { i < length parts.now }
    requires edits { AreEdits (after_step N.ops model step.now) parts.now out.old.items }
    ensures edits { OnOk result (AreEdits (after_step N.ops model step.now) parts.now out.new.items) }
    ensures keeps { OnOk result (KeepsEdits out.old.items out.new.items) }
    ensures edited { OnOk result (is_edited i out.new.items ≡ true) }
{
    if is_seen(out, i) {
        return Ok(());
    }
    let part = step.part_after(*out.allocator(), model, &parts[i])?;
    push(out, Edit { at: i, part })?;
    Ok(())
}

fn push_edits<N: Num>(
    out: &mut Vec<Edit<Cell<N>>>,
    step: &Step<N>,
    model: Model,
    parts: &[Part<Cell<N>>],
    range: (u64, u64),
) -> Result<(), Memory>
    requires spread { AreSpread (outlines number_of parts.now) }
    requires rising { range.0 ≤ range.1 }
    requires edits { AreEdits (after_step N.ops model step.now) parts.now out.old.items }
    ensures edits { OnOk result (AreEdits (after_step N.ops model step.now) parts.now out.new.items) }
    ensures keeps { OnOk result (KeepsEdits out.old.items out.new.items) }
    ensures covers { OnOk result (Covers number_of range.0 range.1 parts.now out.new.items) }
{
    let (first, end) = span(parts, range.0, range.1);
    for i in first..end {
        push_edit(out, step, model, parts, i)?;
    }
    Ok(())
}

fn push_users<N: Num>(
    out: &mut Vec<Edit<Cell<N>>>,
    step: &Step<N>,
    model: Model,
    parts: &[Part<Cell<N>>],
    users: &[u64],
) -> Result<(), Memory>
    requires spread { AreSpread (outlines number_of parts.now) }
    requires edits { AreEdits (after_step N.ops model step.now) parts.now out.old.items }
    ensures edits { OnOk result (AreEdits (after_step N.ops model step.now) parts.now out.new.items) }
    ensures keeps { OnOk result (KeepsEdits out.old.items out.new.items) }
    ensures covers { OnOk result ((k : ℕ) → list_any (nat_eq k) users.now ≡ true
        → Covers number_of k k parts.now out.new.items) }
{
    for k in users {
        push_edits(out, step, model, parts, (*k, *k))?;
    }
    Ok(())
}

// The same numbers, the least first, so that those of one part stand together.
fn in_order(numbers: Vec<u64>) -> Result<Vec<u64>, Memory>
    ensures { IfOk result (λ v. (k : ℕ) → list_any (nat_eq k) numbers.items ≡ true
        → list_any (nat_eq k) v.items ≡ true) }
{
    let mut numbers = numbers;
    numbers.sort().map_err(|_| Memory)?;
    Ok(numbers)
}

/// The parts with forms that mention what begins at places with these numbers, as they are after a step.
pub fn edits_of_users<N: Num>(
    alloc: Global,
    step: &Step<N>,
    model: Model,
    parts: &[Part<Cell<N>>],
    uses: &[Part<Use>],
    range: (u64, u64),
) -> Result<Vec<Edit<Cell<N>>>, Memory>
    requires spread { AreSpread (outlines number_of parts.now) }
    requires uses { AreSpread (outlines number_of_use uses.now) }
    requires rising { range.0 ≤ range.1 }
    ensures edits { IfOk result (λ v. AreEdits (after_step N.ops model step.now) parts.now v.items) }
    ensures users { IfOk result (λ v. (u : Use) → IsNoted (all_items uses.now) u → range.0 ≤ u.of → u.of ≤ range.1
        → Covers number_of u.by u.by parts.now v.items) }
{
    let mut out = Vec::new(alloc);
    let users = in_order(users(alloc, uses, range.0, range.1)?)?;
    push_users(&mut out, step, model, parts, &users)?;
    Ok(out)
}

/// The parts that a step changes, as they are after it, where these are the numbers of what may touch its place.
pub fn plan<N: Num>(
    step: &Step<N>,
    model: Model,
    parts: &[Part<Cell<N>>],
    uses: &[Part<Use>],
    range: (u64, u64),
    alloc: Global,
) -> Result<Vec<Edit<Cell<N>>>, Memory>
    requires spread { AreSpread (outlines number_of parts.now) }
    requires uses { AreSpread (outlines number_of_use uses.now) }
    requires rising { range.0 ≤ range.1 }
    ensures { IfOk result (λ v. IsPlan (after_step N.ops model step.now) range.0 range.1 (all_items uses.now)
        parts.now v.items) }
{
    let mut out = Vec::new(alloc);
    push_edits(&mut out, step, model, parts, range)?;
    let users = in_order(users(alloc, uses, range.0, range.1)?)?;
    push_users(&mut out, step, model, parts, &users)?;
    Ok(out)
}
