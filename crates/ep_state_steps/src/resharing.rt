//! Left and Right cells of a state that are surely the same become Shared ones.

ghost use Rattle.std.specs.Prelude.{◌≡◌, ◌∷◌, [], IfOk, OnOk, OnErr};
ghost use Rattle.ep_cells.specs.Reshare.{reshared_cell, reshared_at, reshared};
ghost use Rattle.ep_state_steps.specs.Ones.{reshared_from};

use ep_bicells::changes::Step;
use ep_cell_changes::reshare::reshared_cell;
use ep_cell_rows::rows::push;
use ep_cells::Cell;
use ep_domain::Num;
use ep_int::Memory;
use ep_state_looks::twins::{Twins, twins_at};
use ep_states::State;
use std::alloc::Global;

fn one_of<N: Num>(alloc: Global, twins: &Twins<N>) -> Result<Vec<Cell<N>>, Memory>
    ensures { IfOk result (λ v. v.items ≡ reshared_cell N.ops twins.now.left twins.now.right ∷ []) }
{
    let mut one = Vec::new(alloc);
    push(&mut one, reshared_cell(&twins.left, &twins.right)?)?;
    Ok(one)
}

fn reshare_at<N: Num>(state: State<N>, block: u32, offset: u32) -> Result<State<N>, Memory>
    ensures { IfOk result (λ s. s ≡ record state { cells = reshared_at N.ops block offset state.cells }) }
{
    state.model();
    match twins_at(&state, block, offset)? {
        None => Ok(state),
        Some(twins) => {
            let new = one_of(state.allocator(), &twins)?;
            let step = Step::Reshare(twins.left, twins.right);
            let after = state.after(&step, new)?;
            Ok(after)
        }
    }
}

fn reshare_each<N: Num>(state: State<N>, places: &[(u32, u32)]) -> Result<State<N>, Memory>
    ensures { IfOk result (λ s. s ≡ reshared_from N.ops places.now state) }
{
    let mut sofar = state;
    for p in places {
        let next = reshare_at(sofar, p.0, p.1)?;
        sofar = next;
    }
    Ok(sofar)
}

/// Left and Right integer cells of one place and type that are surely the same become Shared ones. Costs a look at all
/// cells, searches for each Left cell, and a step for each pair.
pub fn reshare_all<N: Num>(state: State<N>) -> Result<State<N>, Memory>
    ensures { IfOk result (λ s. s ≡ record state { cells = reshared N.ops state.cells }) }
{
    let places = state.left_places()?;
    if state.is_reshared_at(&places) {
        return Ok(state);
    }
    let after = reshare_each(state, &places)?;
    Ok(after)
}

/// What is reshared in place.
pub trait Reshare: Drop {
    ghost after: { Self → Self };

    /// Left and Right integer cells of one place and type that are surely the same become Shared ones. Costs what
    /// `reshare_all` does, and a count for each part.
    fn reshare(&mut self) -> Result<(), Memory>
        ensures ok { OnOk result (self.new ≡ after self.old) }
        ensures err { OnErr result (self.new ≡ self.old) };
}

impl<N: Num> Reshare for State<N> {
    ghost use Rattle.ep_cells.specs.Reshare.{reshared};

    ghost after = { λ s. record s { cells = reshared N.ops s.cells } };

    fn reshare(&mut self) -> Result<(), Memory> {
        let after = reshare_all(self.copy()?)?;
        *self = after;
        Ok(())
    }
}
