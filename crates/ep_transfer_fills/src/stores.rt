//! A value goes to the places of its address.

ghost use Rattle.std.specs.Prelude.{◌≡◌, ◌&&◌, ◌++◌, IfOk, OnOk};
ghost use Rattle.ep_transfers.specs.Places as places_spec;
ghost use Rattle.ep_transfers.specs.Transfers as spec;
ghost use Rattle.ep_transfer_places.specs.Room.{view as shown_places};
ghost use Rattle.ep_transfer_writes.specs.Waiting.{SideFits};

use ep_domain::Num;
use ep_equalities::{Fault, Mode, PairValue, same};
use ep_int::{Memory, Scalar};
use ep_states::State;
use ep_transfer_places::Places;
use ep_transfer_places::faults::aligned_faults;
use ep_transfer_places::places::{aligned_places, has_places, has_values};
use ep_transfer_writes::{Item, write_now};

/// Whether each running side has a place and a value.
pub(crate) fn goes_on<N: Num>(mode: Mode, places: &Places, v: &PairValue<N>) -> bool
    ensures { result ≡ places_spec.has_places mode (shown_places places.now) && places_spec.has_values mode v.now }
{
    has_places(mode, places) && has_values(mode, v)
}

/// A value is stored as a scalar at the places of an address. None is left where a running side has no place or no
/// value. The faults are added to those that are there.
pub fn assigned<N: Num>(
    mode: Mode,
    sizes: &[u32],
    what: Scalar,
    to: &PairValue<N>,
    v: PairValue<N>,
    state: State<N>,
    faults: &mut Vec<Fault>,
) -> Result<Option<State<N>>, Memory>
    requires left { SideFits state what v.left }
    requires right { SideFits state what v.right }
    ensures next { IfOk result (λ r. r ≡ (spec.assigned N.ops sizes.now mode what to.now v state).next) }
    ensures faults { OnOk result (faults.new.items
        ≡ faults.old.items ++ (spec.assigned N.ops sizes.now mode what to.now v state).faults) }
{
    let n = ep_int::size(state.model(), what);
    aligned_faults(mode, sizes, n, to, faults)?;
    let places = aligned_places(state.allocator(), sizes, n, to)?;
    if !goes_on(mode, &places, &v) {
        return Ok(None);
    }
    let after = write_now(mode, same(to), what, &places, Item::of(v), state)?;
    Ok(Some(after))
}
