//! Two states. Where they are none of the program and of these machines, or have no cells alike, nothing is known.

ghost use Rattle.std.specs.Prelude.{◌≡◌, true, IfOk};
ghost use Rattle.ep_cells.specs.States.{HaveCellsAlike};
ghost use Rattle.ep_flows.specs.View.{mode_of, ops_for, plan_of};
ghost use Rattle.ep_transfers.specs.Cells as cells;
ghost use Rattle.ep_transfers.specs.Cells.{cell_ops};

use crate::running::{is_state, is_told_so, pair_mode};
use ep_domain::Num;
use ep_flows::setting::{Running, Setting};
use ep_int::Memory;
use ep_state_steps::reshare_all;
use ep_state_synthesis::unified as make_alike;
use ep_states::State;
use ep_transfer_blocks::entered;

// Nothing is known.
pub(crate) fn empty<N: Num>(c: &Setting<'_>) -> State<N>
    ensures { result ≡ (ops_for (cell_ops N.ops) (plan_of c.now)).empty }
{
    State::empty(c.alloc, (c.left, c.right), c.program.types.model())
}

// Blocks are entered, or left.
pub(crate) fn entered_or_left<N: Num>(
    c: &Setting<'_>,
    mode: Running,
    blocks: &[u32],
    state: State<N>,
) -> Result<State<N>, Memory>
    ensures { IfOk result (λ s. s ≡ cells.entered_or_left N.ops (plan_of c.now).program (plan_of c.now).order
        (mode_of mode) blocks.now state) }
{
    if !is_told_so(c, &state) {
        return Ok(empty(c));
    }
    let after = entered(c.program, pair_mode(mode), blocks, state)?;
    Ok(after)
}

fn are_states<N: Num>(c: &Setting<'_>, k: &State<N>, l: &State<N>) -> bool
    ensures value { result ≡ cells.are_states N.ops (plan_of c.now).program (plan_of c.now).order k.now l.now }
    ensures orders { result ≡ true → k.now.orders ≡ l.now.orders }
    ensures model { result ≡ true → k.now.model ≡ l.now.model }
{
    is_state(c, k) & is_state(c, l)
}

fn fit_to_join<N: Num>(c: &Setting<'_>, k: &State<N>, l: &State<N>) -> bool
    ensures value { result ≡ cells.fit_to_join N.ops (plan_of c.now).program (plan_of c.now).order k.now l.now }
    ensures model { result ≡ true → k.now.model ≡ l.now.model }
    ensures alike { result ≡ true → HaveCellsAlike k.now.cells l.now.cells }
{
    if !are_states(c, k, l) {
        return false;
    }
    k.is_like(l)
}

// Brought to one shape.
pub(crate) fn unified<N: Num>(
    c: &Setting<'_>,
    k: State<N>,
    l: State<N>,
) -> Result<(State<N>, State<N>), Memory>
    ensures { IfOk result (λ r. r ≡ (ops_for (cell_ops N.ops) (plan_of c.now)).unified k l) }
{
    if !are_states(c, &k, &l) {
        return Ok((empty(c), empty(c)));
    }
    let both = make_alike(k, l)?;
    Ok((both.left, both.right))
}

pub(crate) fn joined<N: Num>(
    c: &Setting<'_>,
    k: &State<N>,
    l: &State<N>,
) -> Result<State<N>, Memory>
    ensures { IfOk result (λ s. s ≡ (ops_for (cell_ops N.ops) (plan_of c.now)).joined k.now l.now) }
{
    if !fit_to_join(c, k, l) {
        return Ok(empty(c));
    }
    let both = k.join(l)?;
    Ok(both)
}

pub(crate) fn widened<N: Num>(
    c: &Setting<'_>,
    k: &State<N>,
    l: &State<N>,
) -> Result<State<N>, Memory>
    ensures { IfOk result (λ s. s ≡ (ops_for (cell_ops N.ops) (plan_of c.now)).widened k.now l.now) }
{
    if !fit_to_join(c, k, l) {
        return Ok(empty(c));
    }
    let both = k.widen(l)?;
    Ok(both)
}

// Whether the first is surely within the second.
pub(crate) fn leq<N: Num>(c: &Setting<'_>, k: &State<N>, l: &State<N>) -> bool
    ensures { result ≡ (ops_for (cell_ops N.ops) (plan_of c.now)).leq k.now l.now }
{
    if !are_states(c, k, l) {
        return false;
    }
    k.leq(l)
}

// Told of both sides together where they surely are equal.
pub(crate) fn reshared<N: Num>(c: &Setting<'_>, state: State<N>) -> Result<State<N>, Memory>
    ensures { IfOk result (λ s. s ≡ (ops_for (cell_ops N.ops) (plan_of c.now)).reshared state) }
{
    let after = reshare_all(state)?;
    Ok(after)
}
