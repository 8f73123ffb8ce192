//! Whether a copy may go without a fault.

ghost use Rattle.std.specs.Prelude.{◌≡◌};
ghost use Rattle.std.specs.List.{list_any};
ghost use Rattle.ep_transfers.specs.Copies as spec;
ghost use Rattle.ep_transfer_places.specs.Room.{view};

use ep_domain::Num;
use ep_equalities::Mode;
use ep_transfer_places::Places;

// So many bytes from each of two places on are apart, or the same of an aggregate.
fn are_apart<N: Num>(aggregate: bool, bytes: u32, q: (u32, u32), p: (u32, u32)) -> bool
    ensures { result ≡ spec.are_apart N.ops aggregate bytes q p }
{
    let n = u64::from(bytes);
    let to = u64::from(q.1);
    let from = u64::from(p.1);
    q.0 != p.0 || (to + n <= from || from + n <= to || (aggregate && to == from))
}

fn is_some_apart<N: Num>(aggregate: bool, bytes: u32, q: (u32, u32), from: &[(u32, u32)]) -> bool
    ensures { result ≡ list_any (spec.are_apart N.ops aggregate bytes q) from.now }
{
    from.iter().any(|p| are_apart::<N>(aggregate, bytes, q, *p))
}

fn some_apart<N: Num>(aggregate: bool, bytes: u32, to: &[(u32, u32)], from: &[(u32, u32)]) -> bool
    ensures { result ≡ spec.some_apart N.ops aggregate bytes to.now from.now }
{
    to.iter()
        .any(|q| is_some_apart::<N>(aggregate, bytes, *q, from))
}

/// Whether on each running side some place that is written and some place that is read are apart, or the same place of
/// an aggregate. Costs a look at each pair of places, until there is one.
pub fn can_copy<N: Num>(mode: Mode, aggregate: bool, bytes: u32, to: &Places, from: &Places) -> bool
    ensures { result ≡ spec.can_copy N.ops mode aggregate bytes (view to.now) (view from.now) }
{
    match mode {
        Mode::Both => {
            some_apart::<N>(aggregate, bytes, &to.left, &from.left)
                && some_apart::<N>(aggregate, bytes, &to.right, &from.right)
        }
        Mode::Left => some_apart::<N>(aggregate, bytes, &to.left, &from.left),
        Mode::Right => some_apart::<N>(aggregate, bytes, &to.right, &from.right),
    }
}
