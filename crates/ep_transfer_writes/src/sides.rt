//! One side by itself, and both.

ghost use Rattle.std.specs.Prelude.{◌≡◌, ◌+◌, ◌^◌, ◌≤◌, IfOk, None, false};
ghost use Rattle.ep_int.specs.Types.{size_of};
ghost use Rattle.ep_evaluation.specs.Given.{cells_of, on};
ghost use Rattle.ep_transfers.specs.Writes as spec;
ghost use Rattle.ep_transfer_places.specs.Room.{HaveRoom, BothHaveRoom, view as shown_places};
ghost use Rattle.ep_transfer_writes.specs.Waiting.{view, item_view, ItemFits, Keeps, side_of};

use crate::cells::side_cell;
use crate::changes::{strongly, weakly_each};
use crate::item::{Item, Underway};
use ep_bitslice::Side;
use ep_cell_rows::values::copy_form;
use ep_domain::Num;
use ep_equalities::{PairValue, SideValue};
use ep_int::{Memory, Scalar};
use ep_transfer_places::Places;

/// One of both sides.
#[derive(Clone, Copy)]
pub(crate) enum On {
    Left,
    Right,
}

impl On {
    /// Its side of cells.
    pub(crate) fn cells(self) -> Side
        ensures { result ≡ cells_of (side_of self) }
    {
        match self {
            On::Left => Side::Left,
            On::Right => Side::Right,
        }
    }

    /// What it has of a pair.
    pub(crate) fn of<N>(self, x: &PairValue<N>) -> &SideValue<N>
        ensures { result.now ≡ on x.now (side_of self) }
    {
        match self {
            On::Left => &x.left,
            On::Right => &x.right,
        }
    }

    /// Whether what it has may be undefined.
    pub(crate) fn maybe<N>(self, item: &Item<N>) -> bool
        ensures { result ≡ spec.maybe_on (item_view item.now) (side_of self) }
    {
        match self {
            On::Left => item.left_maybe,
            On::Right => item.right_maybe,
        }
    }
}

fn write_one<N: Num>(
    side: On,
    what: Scalar,
    spot: (u32, u32),
    u: Underway<N>,
) -> Result<Underway<N>, Memory>
    requires item { ItemFits u.state what (item_view u.item) }
    requires room { spot.1 + size_of u.state.model what ≤ 2 ^ 32 }
    ensures value { IfOk result (λ r. view r ≡ spec.strongly N.ops
        (spec.side_cell N.ops (side_of side) what (item_view u.item) (on u.item.pair (side_of side)).form spot)
        (view u)) }
    ensures keeps { IfOk result (λ r. Keeps (view u) (view r)) }
{
    let form = copy_form(&side.of(&u.item.pair).form);
    let c = side_cell(&u.state, side, what, &u.item, form, spot)?;
    strongly(c, u)
}

fn write_each<N: Num>(
    side: On,
    what: Scalar,
    spots: &[(u32, u32)],
    u: Underway<N>,
) -> Result<Underway<N>, Memory>
    requires item { ItemFits u.state what (item_view u.item) }
    requires room { HaveRoom (size_of u.state.model what) spots.now }
    ensures value { IfOk result (λ r. view r ≡ spec.weakly_each N.ops
        (spec.side_cell N.ops (side_of side) what (item_view u.item) None) false spots.now (view u)) }
    ensures keeps { IfOk result (λ r. Keeps (view u) (view r)) }
{
    let c = side_cell(&u.state, side, what, &u.item, None, (0, 0))?;
    weakly_each(&c, false, spots, u)
}

/// What waits is written at the places of a side.
pub(crate) fn write_side<N: Num>(
    side: On,
    what: Scalar,
    spots: &[(u32, u32)],
    u: Underway<N>,
) -> Result<Underway<N>, Memory>
    requires item { ItemFits u.state what (item_view u.item) }
    requires room { HaveRoom (size_of u.state.model what) spots.now }
    ensures value { IfOk result (λ r. view r ≡ spec.write_side N.ops (side_of side) what spots.now (view u)) }
    ensures keeps { IfOk result (λ r. Keeps (view u) (view r)) }
{
    match spots {
        [] => Ok(u),
        [spot] => write_one(side, what, *spot, u),
        [_, _, ..] => write_each(side, what, spots, u),
    }
}

/// The left side first.
pub(crate) fn write_sides<N: Num>(
    what: Scalar,
    places: &Places,
    u: Underway<N>,
) -> Result<Underway<N>, Memory>
    requires item { ItemFits u.state what (item_view u.item) }
    requires room { BothHaveRoom (size_of u.state.model what) (shown_places places.now) }
    ensures value { IfOk result (λ r. view r ≡ spec.write_sides N.ops what (shown_places places.now) (view u)) }
    ensures keeps { IfOk result (λ r. Keeps (view u) (view r)) }
{
    let left = write_side(On::Left, what, &places.left, u)?;
    let right = write_side(On::Right, what, &places.right, left)?;
    Ok(right)
}
