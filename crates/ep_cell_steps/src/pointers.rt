//! Pointers into a block, in cells in parts.

ghost use Rattle.std.specs.Prelude.{◌≡◌, ◌<◌, ◌≤◌, false, length, get_or, OnOk};
ghost use Rattle.std.specs.List.{list_any};
ghost use Rattle.ep_cells.specs.declared.cell.Cell.{Cell};
ghost use Rattle.ep_cells.specs.Kill.{has_target};
ghost use Rattle.ep_shared_parts.specs.declared.parts.Part.{Part};
ghost use Rattle.ep_shared_parts.specs.Mentions.{number_at};
ghost use Rattle.ep_shared_parts.specs.Plans.{is_edited, AreEdits, KeepsEdits};
ghost use Rattle.ep_bicells.specs.Steps.{after_step};
ghost use Rattle.ep_cell_steps.specs.Killed.{ArePointless, FindsPointers};

use ep_bicells::changes::{Step, push_edit};
use ep_cell_rows::values::has_target;
use ep_cells::Cell;
use ep_domain::Num;
use ep_int::{Memory, Model};
use ep_shared_parts::numbers::number_at;
use ep_shared_parts::parts::{Edit, Part};

/// The numbers of the first and the last place of a block.
pub fn numbers_of_block(block: u32) -> (u64, u64)
    ensures rising { result.0 ≤ result.1 }
    ensures from { result.0 ≡ number_at block 0 }
    ensures last { result.1 ≡ number_at block 4294967295 }
{
    (number_at(block, 0), number_at(block, u32::MAX))
}

fn has_pointer<N: Num>(block: u32, cells: &[Cell<N>]) -> bool
    ensures { result ≡ list_any (λ c. has_target block c.value) cells.now }
{
    cells.iter().any(|c| has_target(&c.value, block))
}

fn push_pointers_of<N: Num>(
    out: &mut Vec<Edit<Cell<N>>>,
    step: &Step<N>,
    model: Model,
    parts: &[Part<Cell<N>>],
    block: u32,
    i: usize,
) -> Result<(), Memory>
    requires within { i < length parts.now }
    requires edits { AreEdits (after_step N.ops model step.now) parts.now out.old.items }
    ensures edits { OnOk result (AreEdits (after_step N.ops model step.now) parts.now out.new.items) }
    ensures keeps { OnOk result (KeepsEdits out.old.items out.new.items) }
    ensures pointers { OnOk result ((q : Part (Cell N)) → is_edited i out.new.items ≡ false
        → ArePointless block (get_or parts.now i q).items.value.items) }
{
    if !has_pointer(block, &parts[i].items) {
        return Ok(());
    }
    push_edit(out, step, model, parts, i)?;
    Ok(())
}

/// Adds the parts with pointers into the block.
pub fn push_pointers<N: Num>(
    out: &mut Vec<Edit<Cell<N>>>,
    step: &Step<N>,
    model: Model,
    parts: &[Part<Cell<N>>],
    block: u32,
) -> Result<(), Memory>
    requires { AreEdits (after_step N.ops model step.now) parts.now out.old.items }
    ensures edits { OnOk result (AreEdits (after_step N.ops model step.now) parts.now out.new.items) }
    ensures keeps { OnOk result (KeepsEdits out.old.items out.new.items) }
    ensures pointers { OnOk result (FindsPointers block parts.now out.new.items) }
{
    for i in 0..parts.len() {
        push_pointers_of(out, step, model, parts, block, i)?;
    }
    Ok(())
}
