//! Cells that lie partly in a place become cells of single bytes.

ghost use Rattle.std.specs.Prelude.{◌≡◌, false, IfOk, OnOk, OnErr};
ghost use Rattle.ep_cells.specs.Cells.{is_same_side};
ghost use Rattle.ep_cells.specs.Look.{is_some_partly_in};
ghost use Rattle.ep_reads.specs.Split.{split};
ghost use Rattle.ep_reads.specs.SplitLaws.{SplitHolds};
ghost use Rattle.ep_state_synthesis.specs.Calls.{place_at};

use ep_bitslice::Side;
use ep_cells::ByteRange;
use ep_domain::Num;
use ep_int::Memory;
use ep_reads::split_laws;
use ep_state_steps::split_all;
use ep_states::State;

fn split_copy<N: Num>(state: &State<N>, p: ByteRange) -> Result<State<N>, Memory>
    requires { is_same_side p.side Side.Shared ≡ false }
    ensures { IfOk result (λ s. s ≡ record state.now { cells = split N.ops state.now p }) }
{
    let copy = state.copy()?;
    let after = split_all(copy, p)?;
    Ok(after)
}

/// The cells that lie partly in a place of the left or of the right side become cells of single bytes, as much as is
/// of that side. Costs a look at the cells by the place, and a step for each that lies partly in it.
pub fn split<N: Num>(
    state: &mut State<N>,
    side: Side,
    block: u32,
    offset: u32,
    bytes: u32,
) -> Result<(), Memory>
    requires { is_same_side side Side.Shared ≡ false }
    ensures ok { OnOk result (state.new
        ≡ record state.old { cells = split N.ops state.old (place_at side block offset bytes) }) }
    ensures none_cut { OnOk result (is_some_partly_in state.new.model (place_at side block offset bytes) state.new.cells
        ≡ false) }
    ensures holds { OnOk result (SplitHolds N.ops state.old (place_at side block offset bytes) state.new) }
    ensures err { OnErr result (state.new ≡ state.old) }
{
    split_laws::<N>();
    state.model();
    let place = ByteRange {
        side,
        block,
        offset,
        bytes,
    };
    if !state.partly(&place) {
        return Ok(());
    }
    let after = split_copy(state, place)?;
    *state = after;
    Ok(())
}
