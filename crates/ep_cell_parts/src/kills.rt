//! Killed blocks of cells in parts.

ghost use Rattle.std.specs.Prelude.{◌≡◌, map, IfOk};
ghost use Rattle.ep_cells.specs.Cells.{each_becomes};
ghost use Rattle.ep_cells.specs.Forms.{reformed};
ghost use Rattle.ep_cells.specs.Kill.{AreLeavesIn, left_by_kill, fate_by_kill, killed_cells};
ghost use Rattle.ep_shared_parts.specs.Spread.{outlines, all_items, AreSpread};
ghost use Rattle.ep_shared_parts.specs.Mentions.{number_of, number_of_use};
ghost use Rattle.ep_cell_steps.specs.PartsInvariant.{AreKept};
ghost use Rattle.ep_cell_steps.specs.Killed.{AreKilled, AreShort};

use ep_bicells::changes::{Step, plan};
use ep_bitslice::Side;
use ep_cell_changes::entry::entry_cells;
use ep_cell_steps::pointers::{numbers_of_block, push_pointers};
use ep_cell_steps::putting::put_all;
use ep_cells::{Cell, kill_laws};
use ep_domain::Num;
use ep_int::{Memory, Model};
use ep_layout::Leaf;
use ep_shared_parts::parts::{Edit, Part, install, shared};
use ep_shared_parts::uses::Use;
use std::alloc::Global;

fn edits_of_kill<N: Num>(
    alloc: Global,
    model: Model,
    parts: &[Part<Cell<N>>],
    uses: &[Part<Use>],
    side: Side,
    block: u32,
) -> Result<Vec<Edit<Cell<N>>>, Memory>
    requires spread { AreSpread (outlines number_of parts.now) }
    requires uses { AreSpread (outlines number_of_use uses.now) }
    ensures { IfOk result (λ v. AreKilled N.ops model side block (all_items uses.now) parts.now v.items) }
{
    let step = Step::Kill(side, block);
    let range = numbers_of_block(block);
    let mut edits = plan(&step, model, parts, uses, range, alloc)?;
    push_pointers(&mut edits, &step, model, parts, block)?;
    Ok(edits)
}

// What is left of the cells.
fn left_by_kill<N: Num>(
    alloc: Global,
    model: Model,
    parts: &[Part<Cell<N>>],
    uses: &[Part<Use>],
    side: Side,
    block: u32,
) -> Result<Vec<Part<Cell<N>>>, Memory>
    requires { AreKept model parts.now uses.now }
    ensures spread { IfOk result (λ v. AreSpread (outlines number_of v.items)) }
    ensures items { IfOk result (λ v. all_items v.items
        ≡ map (reformed (fate_by_kill side block)) (each_becomes (left_by_kill side block) (all_items parts.now))) }
    ensures short { IfOk result (λ v. AreShort (all_items v.items)) }
{
    let mut left = shared(alloc, parts)?;
    let edits = edits_of_kill(alloc, model, &left, uses, side, block)?;
    install(&mut left, edits);
    Ok(left)
}

/// The parts where a block is killed.
pub fn killed<N: Num>(
    alloc: Global,
    model: Model,
    parts: &[Part<Cell<N>>],
    uses: &[Part<Use>],
    side: Side,
    block: u32,
    leaves: &[Leaf],
    size: u32,
) -> Result<Vec<Part<Cell<N>>>, Memory>
    requires kept { AreKept model parts.now uses.now }
    requires leaves { AreLeavesIn model 0 size leaves.now }
    ensures items { IfOk result (λ v. all_items v.items
        ≡ killed_cells model side block leaves.now size (all_items parts.now)) }
    ensures kept { IfOk result (λ v. AreKept model v.items uses.now) }
{
    kill_laws::<N>();
    let mut after = left_by_kill(alloc, model, parts, uses, side, block)?;
    let entered = entry_cells(alloc, model, side, block, leaves, size)?;
    put_all(alloc, &mut after, entered)?;
    Ok(after)
}
