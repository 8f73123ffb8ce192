//! Weak writes to cells in parts.

ghost use Rattle.std.specs.Prelude.{◌≡◌, true, IfOk, OnOk, OnErr};
ghost use Rattle.ep_cells.specs.States.{Fits};
ghost use Rattle.ep_cells.specs.Weaken.{weakened};
ghost use Rattle.ep_shared_parts.specs.Spread.{outlines, all_items, AreSpread};
ghost use Rattle.ep_shared_parts.specs.Mentions.{number_of, number_of_use};
ghost use Rattle.ep_cell_steps.specs.PartsInvariant.{AreKept};
ghost use Rattle.ep_cell_steps.specs.Weakened.{AreWeakened};

use crate::changes::{Parts, after, no_cells};
use ep_bicells::cells::reach;
use ep_bicells::changes::{Step, plan};
use ep_bitslice::Side;
use ep_cell_rows::cell::copy_cell;
use ep_cell_rows::places::place_of;
use ep_cell_rows::values::rises;
use ep_cells::{Cell, weak_write_laws};
use ep_domain::Num;
use ep_int::{Memory, Model};
use ep_shared_parts::parts::{Edit, Part, install};
use ep_shared_parts::uses::Use;
use std::alloc::Global;

fn edits_of_weak_write<N: Num>(
    alloc: Global,
    model: Model,
    parts: &[Part<Cell<N>>],
    uses: &[Part<Use>],
    c: &Cell<N>,
    shared_stays: bool,
) -> Result<Vec<Edit<Cell<N>>>, Memory>
    requires spread { AreSpread (outlines number_of parts.now) }
    requires uses { AreSpread (outlines number_of_use uses.now) }
    ensures { IfOk result (λ v. AreWeakened N.ops model c.now shared_stays (all_items uses.now) parts.now v.items) }
{
    let range = reach(&place_of(model, c));
    let step = Step::WeakWrite(copy_cell(c)?, shared_stays);
    let edits = plan(&step, model, parts, uses, range, alloc)?;
    Ok(edits)
}

/// A cell may be written. Where there is no memory all cells stay.
pub fn weaken_at<N: Num>(
    alloc: Global,
    model: Model,
    parts: &mut Vec<Part<Cell<N>>>,
    uses: &[Part<Use>],
    c: &Cell<N>,
    shared_stays: bool,
) -> Result<(), Memory>
    requires kept { AreKept model parts.old.items uses.now }
    requires fits { Fits model c.now }
    requires stays { shared_stays ≡ true → c.now.side ≡ Side.Shared }
    ensures kept { AreKept model parts.new.items uses.now }
    ensures ok { OnOk result (all_items parts.new.items
        ≡ weakened N.ops model c.now shared_stays (all_items parts.old.items)) }
    ensures err { OnErr result (all_items parts.new.items ≡ all_items parts.old.items) }
{
    rises(&c.value);
    weak_write_laws::<N>();
    let edits = edits_of_weak_write(alloc, model, parts, uses, c, shared_stays)?;
    install(parts, edits);
    Ok(())
}

/// The parts where a cell may be written.
pub fn weakened<N: Num>(
    alloc: Global,
    model: Model,
    before: Parts<N>,
    c: &Cell<N>,
    shared_stays: bool,
) -> Result<Parts<N>, Memory>
    requires kept { AreKept model before.cells.items before.uses.items }
    requires fits { Fits model c.now }
    requires stays { shared_stays ≡ true → c.now.side ≡ Side.Shared }
    ensures items { IfOk result (λ v. all_items v.cells.items
        ≡ weakened N.ops model c.now shared_stays (all_items before.cells.items)) }
    ensures kept { IfOk result (λ v. AreKept model v.cells.items v.uses.items) }
{
    rises(&c.value);
    weak_write_laws::<N>();
    let copy = copy_cell(c)?;
    let new = no_cells(alloc);
    let step = Step::WeakWrite(copy, shared_stays);
    let made = after(alloc, model, before, &step, &new)?;
    Ok(made)
}
