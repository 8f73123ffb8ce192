//! The cells of blocks whose scope is entered.

ghost use Rattle.std.specs.Prelude.{◌≡◌, ◌++◌, ◌∷◌, [], ◌≤◌, ◌-◌, ◌↔◌, IsTrue, IfOk};
ghost use Rattle.ep_cells.specs.Kill.{AreLeavesIn, undefined_cell, entry_cells};
ghost use Rattle.ep_cell_changes.specs.Entry.{byte_cells};

use ep_bitslice::Side;
use ep_cell_rows::rows::push;
use ep_cells::Cell;
use ep_domain::Num;
use ep_int::{IntType, Memory, Model, Scalar};
use ep_layout::Leaf;
use std::alloc::Global;

/// Whether leaves rise, don't overlap and end inside a size.
pub fn are_leaves(model: Model, size: u32, leaves: &[Leaf]) -> bool
    ensures { IsTrue result ↔ AreLeavesIn model 0 size leaves.now }
{
    let mut at = 0u64;
    for l in leaves {
        if u64::from(l.offset) < at {
            return false;
        }
        at = u64::from(l.offset) + u64::from(ep_int::size(model, l.what));
    }
    at <= u64::from(size)
}

fn undefined_cell<N: Num>(side: Side, block: u32, offset: u32, what: Scalar) -> Cell<N>
    ensures { result ≡ undefined_cell side block offset what }
{
    Cell {
        side,
        block,
        offset,
        what,
        value: None,
        maybe: true,
        form: None,
    }
}

// A cell for each byte.
fn push_bytes<N: Num>(
    out: &mut Vec<Cell<N>>,
    side: Side,
    block: u32,
    from: u32,
    to: u32,
) -> Result<(), Memory>
    requires { from ≤ to }
    ensures { IfOk result (λ _. out.new.items ≡ out.old.items ++ byte_cells side block from (to - from)) }
{
    for q in from..to {
        push(
            out,
            undefined_cell(side, block, q, Scalar::Int(IntType::U8)),
        )?;
    }
    Ok(())
}

/// The cells of a block whose scope is entered: one for each leaf and for each byte beside them.
pub fn entry_cells<N: Num>(
    alloc: Global,
    model: Model,
    side: Side,
    block: u32,
    leaves: &[Leaf],
    size: u32,
) -> Result<Vec<Cell<N>>, Memory>
    requires { AreLeavesIn model 0 size leaves.now }
    ensures { IfOk result (λ v. v.items ≡ entry_cells model side block leaves.now size) }
{
    let mut out = Vec::new(alloc);
    let mut at = 0;
    for l in leaves {
        push_bytes(&mut out, side, block, at, l.offset)?;
        push(&mut out, undefined_cell(side, block, l.offset, l.what))?;
        at = l.offset + ep_int::size(model, l.what);
    }
    push_bytes(&mut out, side, block, at, size)?;
    Ok(out)
}
