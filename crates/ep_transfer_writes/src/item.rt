//! What is to be written.

ghost use Rattle.std.specs.Prelude.{◌≡◌};
ghost use Rattle.ep_transfers.specs.Writes as spec;
ghost use Rattle.ep_transfer_writes.specs.Waiting.{item_view};

use ep_domain::Num;
use ep_equalities::{PairValue, same};
use ep_states::State;

/// The values and forms of both sides, whether each may be undefined, and whether both surely are the same, which was
/// decided before the first write.
#[derive(Drop)]
pub struct Item<N> {
    pub pair: PairValue<N>,
    pub left_maybe: bool,
    pub right_maybe: bool,
    pub same: bool,
}

/// What is known, and what is still to be written, with its forms as the writes so far have left them.
#[derive(Drop)]
pub struct Underway<N> {
    pub state: State<N>,
    pub item: Item<N>,
}

impl<N: Num> Item<N> {
    /// A pair that surely has values.
    pub fn of(pair: PairValue<N>) -> Self
        ensures { item_view result ≡ spec.item_of N.ops pair }
    {
        let same = same(&pair);
        Item {
            pair,
            left_maybe: false,
            right_maybe: false,
            same,
        }
    }
}
