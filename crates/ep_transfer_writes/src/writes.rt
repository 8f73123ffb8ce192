//! What waits is written in each mode.

ghost use Rattle.std.specs.Prelude.{◌≡◌, ◌+◌, ◌^◌, ◌≤◌, ◌∷◌, [], IfOk, None};
ghost use Rattle.ep_int.specs.Types.{size_of};
ghost use Rattle.ep_cells.specs.Forms.{common_form};
ghost use Rattle.ep_cell_ranges.specs.Spots.{is_same_spot};
ghost use Rattle.ep_transfers.specs.Writes as spec;
ghost use Rattle.ep_transfer_places.specs.Room.{HaveRoom, BothHaveRoom, view as shown_places};
ghost use Rattle.ep_transfer_writes.specs.Waiting.{view, item_view, one_spot, ItemFits, Keeps};

use crate::cells::{common_form, shared_cell};
use crate::changes::{strongly, weakly_each};
use crate::item::{Item, Underway};
use crate::sides::{On, write_side, write_sides};
use ep_domain::Num;
use ep_equalities::Mode;
use ep_int::{Memory, Scalar};
use ep_state_ranges::all_spots;
use ep_states::State;
use ep_transfer_places::Places;

// ---- both sides together

fn write_shared<N: Num>(
    what: Scalar,
    spot: (u32, u32),
    u: Underway<N>,
) -> Result<Underway<N>, Memory>
    requires item { ItemFits u.state what (item_view u.item) }
    requires room { spot.1 + size_of u.state.model what ≤ 2 ^ 32 }
    ensures value { IfOk result (λ r. view r ≡ spec.write_shared N.ops what spot (view u)) }
    ensures keeps { IfOk result (λ r. Keeps (view u) (view r)) }
{
    let form = common_form(&u.item.pair.left.form, &u.item.pair.right.form);
    let c = shared_cell(&u.state, what, &u.item, form, spot)?;
    strongly(c, u)
}

fn write_shared_each<N: Num>(
    what: Scalar,
    spots: &[(u32, u32)],
    u: Underway<N>,
) -> Result<Underway<N>, Memory>
    requires item { ItemFits u.state what (item_view u.item) }
    requires room { HaveRoom (size_of u.state.model what) spots.now }
    ensures value { IfOk result (λ r. view r ≡ spec.write_shared_each N.ops what spots.now (view u)) }
    ensures keeps { IfOk result (λ r. Keeps (view u) (view r)) }
{
    let c = shared_cell(&u.state, what, &u.item, None, (0, 0))?;
    weakly_each(&c, true, spots, u)
}

fn is_same_spot(q: (u32, u32), r: (u32, u32)) -> bool
    ensures { result ≡ is_same_spot q r }
{
    q.0 == r.0 && q.1 == r.1
}

fn one_with(q: (u32, u32), right: &[(u32, u32)]) -> Option<(u32, u32)>
    ensures { result ≡ one_spot (q ∷ []) right.now }
{
    match right {
        [] => None,
        [r] => {
            if is_same_spot(q, *r) {
                return Some(q);
            }
            None
        }
        [_, _, ..] => None,
    }
}

/// The one place of both sides.
pub(crate) fn one_spot(left: &[(u32, u32)], right: &[(u32, u32)]) -> Option<(u32, u32)>
    ensures { result ≡ one_spot left.now right.now }
{
    match left {
        [] => None,
        [q] => one_with(*q, right),
        [_, _, ..] => None,
    }
}

// At the one place of both, or at each place of either.
fn write_same<N: Num>(what: Scalar, places: &Places, u: Underway<N>) -> Result<Underway<N>, Memory>
    requires item { ItemFits u.state what (item_view u.item) }
    requires room { BothHaveRoom (size_of u.state.model what) (shown_places places.now) }
    ensures value { IfOk result (λ r. view r
        ≡ spec.write_same N.ops what (shown_places places.now).left (shown_places places.now).right (view u)) }
    ensures keeps { IfOk result (λ r. Keeps (view u) (view r)) }
{
    match one_spot(&places.left, &places.right) {
        None => {
            let all = all_spots(u.state.allocator(), &places.left, &places.right)?;
            write_shared_each(what, &all, u)
        }
        Some(spot) => write_shared(what, spot, u),
    }
}

// ---- in each mode

fn write_both<N: Num>(
    same: bool,
    what: Scalar,
    places: &Places,
    u: Underway<N>,
) -> Result<Underway<N>, Memory>
    requires item { ItemFits u.state what (item_view u.item) }
    requires room { BothHaveRoom (size_of u.state.model what) (shown_places places.now) }
    ensures value { IfOk result (λ r. view r
        ≡ spec.write_both N.ops same what (shown_places places.now) (view u)) }
    ensures keeps { IfOk result (λ r. Keeps (view u) (view r)) }
{
    if same {
        return write_same(what, places, u);
    }
    write_sides(what, places, u)
}

/// What waits is written as a scalar at the places of each running side; `same_to` where their addresses surely are
/// the same. At one place it stands in place of what was there, at several it may. What waits still fits the state
/// after it. Costs the cells that it touches or that mention such.
pub fn write<N: Num>(
    mode: Mode,
    same_to: bool,
    what: Scalar,
    places: &Places,
    underway: Underway<N>,
) -> Result<Underway<N>, Memory>
    requires item { ItemFits underway.state what (item_view underway.item) }
    requires room { BothHaveRoom (size_of underway.state.model what) (shown_places places.now) }
    ensures value { IfOk result (λ r. view r
        ≡ spec.write N.ops mode same_to what (shown_places places.now) (view underway)) }
    ensures keeps { IfOk result (λ r. Keeps (view underway) (view r)) }
{
    match mode {
        Mode::Both => write_both(same_to && underway.item.same, what, places, underway),
        Mode::Left => write_side(On::Left, what, &places.left, underway),
        Mode::Right => write_side(On::Right, what, &places.right, underway),
    }
}

/// One item is written, of which nothing waits.
pub fn write_now<N: Num>(
    mode: Mode,
    same_to: bool,
    what: Scalar,
    places: &Places,
    item: Item<N>,
    state: State<N>,
) -> Result<State<N>, Memory>
    requires item { ItemFits state what (item_view item) }
    requires room { BothHaveRoom (size_of state.model what) (shown_places places.now) }
    ensures { IfOk result (λ s. s
        ≡ spec.write_now N.ops mode same_to what (shown_places places.now) (item_view item) state) }
{
    let after = write(mode, same_to, what, places, Underway { state, item })?;
    Ok(after.state)
}
