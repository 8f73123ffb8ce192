//! The cells that a clear leaves at one place.

ghost use Rattle.std.specs.Prelude.{◌≡◌, ◌+◌, ◌++◌, ◌∷◌, ◌^◌, ◌≤◌, [], IfOk, IfSome};
ghost use Rattle.ep_int.specs.Types.{size_of};
ghost use Rattle.ep_cells.specs.Kill.{AreLeavesIn};
ghost use Rattle.ep_transfer_clears.specs.OnePlace.{zero_cell, undefined_cell, cells_here, cells_from};

use crate::items::{undefined_item, zero_item};
use crate::walks::{Walk, first_at, moved_on};
use ep_bitslice::Side;
use ep_cell_rows::rows::push;
use ep_cells::Cell;
use ep_domain::Num;
use ep_int::{IntType, Memory, Scalar};
use ep_layout::Leaf;
use ep_states::State;
use ep_transfer_writes::item_cell;

fn zero_cell<N: Num>(
    state: &State<N>,
    at: (Side, (u32, u32)),
    offset: u32,
    what: Scalar,
) -> Result<Cell<N>, Memory>
    requires { at.1.1 + offset + size_of state.now.model what ≤ 2 ^ 32 }
    ensures { IfOk result (λ c. c ≡ zero_cell N.ops at.0 at.1 offset what) }
{
    let item = zero_item(state.allocator(), what);
    item_cell(state, at.0, what, &item, (at.1.0, at.1.1 + offset))
}

fn undefined_cell<N: Num>(
    state: &State<N>,
    at: (Side, (u32, u32)),
    offset: u32,
) -> Result<Cell<N>, Memory>
    requires { at.1.1 + offset + 1 ≤ 2 ^ 32 }
    ensures { IfOk result (λ c. c ≡ undefined_cell N.ops at.0 at.1 offset) }
{
    let byte = Scalar::Int(IntType::U8);
    let item = undefined_item();
    item_cell(state, at.0, byte, &item, (at.1.0, at.1.1 + offset))
}

// Of a leaf that begins here, or of a byte outside of all leaves.
fn push_here<N: Num>(
    out: &mut Vec<Cell<N>>,
    state: &State<N>,
    at: (Side, (u32, u32)),
    offset: u32,
    first: Option<Scalar>,
    inside: bool,
) -> Result<(), Memory>
    requires leaf { IfSome first (λ w. at.1.1 + offset + size_of state.now.model w ≤ 2 ^ 32) }
    requires byte { at.1.1 + offset + 1 ≤ 2 ^ 32 }
    ensures { IfOk result (λ _. out.new.items
        ≡ out.old.items ++ cells_here N.ops state.now.model at.0 at.1 offset first inside) }
{
    match first {
        Some(what) => {
            let c = zero_cell(state, at, offset, what)?;
            push(out, c)
        }
        None => {
            if inside {
                return Ok(());
            }
            let c = undefined_cell(state, at, offset)?;
            push(out, c)
        }
    }
}

/// The cells that a clear of so many bytes leaves from a place on, in order.
pub(crate) fn cleared_cells<N: Num>(
    state: &State<N>,
    at: (Side, (u32, u32)),
    bytes: u32,
    leaves: &[Leaf],
) -> Result<Vec<Cell<N>>, Memory>
    requires leaves { AreLeavesIn state.now.model 0 bytes leaves.now }
    requires room { at.1.1 + bytes ≤ 2 ^ 32 }
    ensures { IfOk result (λ v. v.items ≡ cells_from N.ops state.now.model at.0 at.1 leaves.now 0 bytes) }
{
    let model = state.model();
    let mut out = Vec::new(state.allocator());
    let mut walk = Walk { begun: 0, end: 0 };
    for offset in 0..bytes {
        let first = first_at(leaves, walk.begun, offset);
        push_here(&mut out, state, at, offset, first, offset < walk.end)?;
        walk = moved_on(model, bytes, leaves, offset, first, walk);
    }
    Ok(out)
}
