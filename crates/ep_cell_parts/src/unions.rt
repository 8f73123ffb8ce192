//! The cells of two states put together, part by part.

ghost use Rattle.std.specs.Prelude.{◌≡◌, IfOk};
ghost use Rattle.ep_cells.specs.States.{AreCells, HaveCellsAlike};
ghost use Rattle.ep_cells.specs.Both.{cells_of_both};
ghost use Rattle.ep_cell_rows.specs.Parts.{united as of_union};
ghost use Rattle.ep_shared_parts.specs.Spread.{all_items};
ghost use Rattle.ep_cell_steps.specs.PartsInvariant.{AreKept};

use ep_cell_rows::values::Union;
use ep_cell_unions::unions::parts_of_both;
use ep_cells::{Cell, join_laws};
use ep_domain::Num;
use ep_int::{Memory, Model};
use ep_shared_parts::parts::Part;
use ep_shared_parts::uses::Use;
use std::alloc::Global;

/// The parts with the other state's cells joined or widened in. Those all of whose cells stay are shared.
pub fn united<N: Num>(
    alloc: Global,
    model: Model,
    union: Union,
    parts: &[Part<Cell<N>>],
    uses: &[Part<Use>],
    others: &[Part<Cell<N>>],
) -> Result<Vec<Part<Cell<N>>>, Memory>
    requires kept { AreKept model parts.now uses.now }
    requires second { AreCells model (all_items others.now) }
    requires alike { HaveCellsAlike (all_items parts.now) (all_items others.now) }
    ensures items { IfOk result (λ v. all_items v.items
        ≡ cells_of_both (of_union N.ops union) (all_items parts.now) (all_items others.now)) }
    ensures kept { IfOk result (λ v. AreKept model v.items uses.now) }
{
    join_laws::<N>();
    let after = parts_of_both(alloc, union, parts, others)?;
    Ok(after)
}
