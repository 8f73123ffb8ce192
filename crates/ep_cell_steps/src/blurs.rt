//! Places of cells in parts that may have been written in whatever way.

ghost use Rattle.std.specs.Prelude.{◌≡◌, IfOk, OnOk, OnErr};
ghost use Rattle.ep_shared_parts.specs.Spread.{all_items};
ghost use Rattle.ep_cell_steps.specs.PartsInvariant.{AreKept};
ghost use Rattle.ep_cell_steps.specs.Left.{cells_blurred};

use crate::changes::{Parts, after, no_cells};
use ep_bicells::cells::reach;
use ep_bicells::changes::{Step, plan};
use ep_cell_ranges::blur_laws;
use ep_cells::{ByteRange, Cell};
use ep_domain::Num;
use ep_int::{Memory, Model};
use ep_shared_parts::parts::{Part, install};
use ep_shared_parts::uses::Use;
use std::alloc::Global;

/// A place may have been written in whatever way. Where there is no memory all cells stay.
pub fn blur_at<N: Num>(
    alloc: Global,
    model: Model,
    parts: &mut Vec<Part<Cell<N>>>,
    uses: &[Part<Use>],
    place: ByteRange,
) -> Result<(), Memory>
    requires { AreKept model parts.old.items uses.now }
    ensures kept { AreKept model parts.new.items uses.now }
    ensures ok { OnOk result (all_items parts.new.items ≡ cells_blurred N.ops model place (all_items parts.old.items)) }
    ensures err { OnErr result (all_items parts.new.items ≡ all_items parts.old.items) }
{
    blur_laws::<N>();
    let range = reach(&place);
    let edits = plan(&Step::Blur(place), model, parts, uses, range, alloc)?;
    install(parts, edits);
    Ok(())
}

/// The parts where a place may have been written in whatever way.
pub fn blurred<N: Num>(
    alloc: Global,
    model: Model,
    before: Parts<N>,
    place: ByteRange,
) -> Result<Parts<N>, Memory>
    requires { AreKept model before.cells.items before.uses.items }
    ensures items { IfOk result (λ v. all_items v.cells.items
        ≡ cells_blurred N.ops model place (all_items before.cells.items)) }
    ensures kept { IfOk result (λ v. AreKept model v.cells.items v.uses.items) }
{
    blur_laws::<N>();
    let new = no_cells(alloc);
    let step = Step::Blur(place);
    let made = after(alloc, model, before, &step, &new)?;
    Ok(made)
}
