//! What is written at a leaf, and at a byte outside of all leaves.

ghost use Rattle.std.specs.Prelude.{◌≡◌};
ghost use Rattle.ep_transfers.specs.Transfers as spec;
ghost use Rattle.ep_transfer_writes.specs.Waiting.{item_view};

use ep_domain::Num;
use ep_equalities::{Mode, PairValue};
use ep_eval_sides::operators::{constant, null};
use ep_eval_sides::sides::nothing;
use ep_int::Scalar;
use ep_transfer_writes::Item;
use std::alloc::Global;

/// 0, or null.
pub(crate) fn zero_item<N: Num>(alloc: Global, what: Scalar) -> Item<N>
    ensures { item_view result ≡ spec.zero_item N.ops what }
{
    match what {
        Scalar::Int(t) => Item::of(constant(Mode::Both, t, 0)),
        Scalar::Pointer => Item::of(null(alloc, Mode::Both)),
    }
}

pub(crate) fn undefined_item<N: Num>() -> Item<N>
    ensures { item_view result ≡ spec.undefined_item N.ops }
{
    Item {
        pair: PairValue {
            left: nothing(),
            right: nothing(),
            equal: true,
        },
        left_maybe: true,
        right_maybe: true,
        same: true,
    }
}
