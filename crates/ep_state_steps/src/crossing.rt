//! Cells that are crossed come apart, or are gone.

ghost use Rattle.std.specs.Prelude.{◌≡◌, IfOk};
ghost use Rattle.ep_cells.specs.Cells.{IsIn};
ghost use Rattle.ep_reads.specs.Unify.{crossed_cell, crossed_like};
ghost use Rattle.ep_state_steps.specs.Ones.{crossed_at};

use crate::machines::machines_of;
use ep_bicells::changes::Step;
use ep_cells::Cell;
use ep_domain::Num;
use ep_int::Memory;
use ep_state_looks::looking::like;
use ep_states::State;
use ep_synthesis::cross::crossed_parts;

fn cross<N: Num>(state: State<N>, y: Cell<N>) -> Result<State<N>, Memory>
    requires { IsIn y state.cells }
    ensures { IfOk result (λ s. s ≡ record state { cells = crossed_cell N.ops state y state.cells }) }
{
    state.model();
    let new = crossed_parts(state.allocator(), machines_of(&state), &y)?;
    let step = Step::Cross(y);
    let after = state.after(&step, new)?;
    Ok(after)
}

fn cross_like<N: Num>(state: State<N>, x: &Cell<N>) -> Result<State<N>, Memory>
    ensures { IfOk result (λ s. s ≡ record state { cells = crossed_like N.ops state x.now state.cells }) }
{
    match like(&state, x)? {
        None => Ok(state),
        Some(y) => {
            let after = cross(state, y)?;
            Ok(after)
        }
    }
}

pub(crate) fn cross_all<N: Num>(state: State<N>, xs: &[Cell<N>]) -> Result<State<N>, Memory>
    ensures { IfOk result (λ s. s ≡ crossed_at N.ops xs.now state) }
{
    let mut sofar = state;
    for x in xs {
        let next = cross_like(sofar, x)?;
        sofar = next;
    }
    Ok(sofar)
}
