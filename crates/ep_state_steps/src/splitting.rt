//! Cells are split on a side.

ghost use Rattle.std.specs.Prelude.{◌≡◌, false, IfOk};
ghost use Rattle.ep_bitslice.specs.declared.cell.Side.TheVariants.{Shared};
ghost use Rattle.ep_cells.specs.Cells.{IsIn, is_same_side};
ghost use Rattle.ep_cells.specs.States.{Each};
ghost use Rattle.ep_reads.specs.Split.{split, split_cell, split_like};
ghost use Rattle.ep_state_steps.specs.Ones.{split_at, Has};

use crate::machines::machines_of;
use ep_bicells::changes::Step;
use ep_bitslice::Side;
use ep_cells::{ByteRange, Cell};
use ep_domain::Num;
use ep_int::Memory;
use ep_state_looks::looking::{cut, like};
use ep_states::State;
use ep_synthesis::split::split_parts;

fn split_one<N: Num>(state: State<N>, side: Side, y: Cell<N>) -> Result<State<N>, Memory>
    requires one { is_same_side side Side.Shared ≡ false }
    requires has { Has side y }
    requires there { IsIn y state.cells }
    ensures { IfOk result (λ s. s ≡ record state { cells = split_cell N.ops state side y state.cells }) }
{
    state.model();
    let new = split_parts(state.allocator(), machines_of(&state), side, &y)?;
    let step = Step::Split(side, y);
    let after = state.after(&step, new)?;
    Ok(after)
}

fn split_like<N: Num>(state: State<N>, side: Side, x: &Cell<N>) -> Result<State<N>, Memory>
    requires one { is_same_side side Side.Shared ≡ false }
    requires has { Has side x.now }
    ensures { IfOk result (λ s. s ≡ record state { cells = split_like N.ops state side x.now state.cells }) }
{
    match like(&state, x)? {
        None => Ok(state),
        Some(y) => {
            let after = split_one(state, side, y)?;
            Ok(after)
        }
    }
}

fn split_each<N: Num>(state: State<N>, side: Side, xs: &[Cell<N>]) -> Result<State<N>, Memory>
    requires one { is_same_side side Side.Shared ≡ false }
    requires have { Each (Has side) xs.now }
    ensures { IfOk result (λ s. s ≡ split_at N.ops side xs.now state) }
{
    let mut sofar = state;
    for x in xs {
        let next = split_like(sofar, side, x)?;
        sofar = next;
    }
    Ok(sofar)
}

/// Splits the cells that lie partly in a place of one side. Costs a step for each of them.
pub fn split_all<N: Num>(state: State<N>, p: ByteRange) -> Result<State<N>, Memory>
    requires one { is_same_side p.side Side.Shared ≡ false }
    ensures { IfOk result (λ s. s ≡ record state { cells = split N.ops state p }) }
{
    let xs = cut(&state, &p)?;
    let after = split_each(state, p.side, &xs)?;
    Ok(after)
}
