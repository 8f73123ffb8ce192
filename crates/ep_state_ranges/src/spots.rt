//! Places by block and offset, in rising order.

ghost use Rattle.std.specs.Prelude.{◌≡◌, ◌≤◌, ◌++◌, ◌∷◌, [], length, take, drop, IfOk, IfSome, IfNone, IsTrue};
ghost use Rattle.ep_cell_ranges.specs.Spots.{is_same_spot, spot_before, put_spot, all_spots};
ghost use Rattle.ep_state_ranges.specs.Merged.{AreRising, chosen};

use ep_int::Memory;
use std::alloc::Global;

type Spot = (u32, u32);

fn is_same(q: Spot, r: Spot) -> bool
    ensures { result ≡ is_same_spot q r }
{
    q.0 == r.0 && q.1 == r.1
}

fn comes_before(q: Spot, r: Spot) -> bool
    ensures { result ≡ spot_before q r }
{
    q.0 < r.0 || q.0 == r.0 && q.1 < r.1
}

fn push(out: &mut Vec<Spot>, q: Spot) -> Result<(), Memory>
    ensures { IfOk result (λ _. out.new.items ≡ out.old.items ++ q ∷ []) }
{
    out.push(q).map_err(|_| Memory)
}

// ---- in whatever order

// Where a place is put, if it isn't there.
fn place_for(spots: &[Spot], q: Spot) -> Option<usize>
    ensures some { IfSome result (λ i. take i spots.now ++ q ∷ drop i spots.now ≡ put_spot q spots.now) }
    ensures within { IfSome result (λ i. i ≤ length spots.now) }
    ensures none { IfNone result (spots.now ≡ put_spot q spots.now) }
{
    for i in 0..spots.len() {
        if comes_before(q, spots[i]) {
            return Some(i);
        }
        if is_same(q, spots[i]) {
            return None;
        }
    }
    Some(spots.len())
}

fn put(spots: &mut Vec<Spot>, q: Spot) -> Result<(), Memory>
    ensures { IfOk result (λ _. spots.new.items ≡ put_spot q spots.old.items) }
{
    match place_for(spots, q) {
        None => Ok(()),
        Some(i) => spots.insert(i, q).map_err(|_| Memory),
    }
}

fn put_each(alloc: Global, left: &[Spot], right: &[Spot]) -> Result<Vec<Spot>, Memory>
    ensures { IfOk result (λ v. v.items ≡ all_spots left.now right.now) }
{
    let mut out = Vec::new(alloc);
    push_from(&mut out, right, 0)?;
    for i in (0..left.len()).rev() {
        put(&mut out, left[i])?;
    }
    Ok(out)
}

// ---- in rising order

fn are_rising(spots: &[Spot]) -> bool
    ensures { IsTrue result → AreRising spots.now }
{
    for i in (0..spots.len()).rev() {
        if i + 1 < spots.len() && !comes_before(spots[i], spots[i + 1]) {
            return false;
        }
    }
    true
}

// The lower one of two places, and from which lists it is taken.
#[derive(Clone, Copy)]
struct Next {
    spot: Spot,
    left: usize,
    right: usize,
}

fn next_of(q: Spot, r: Spot) -> Next
    ensures spot { result.spot ≡ (chosen q r).spot }
    ensures left { result.left ≡ (chosen q r).left }
    ensures right { result.right ≡ (chosen q r).right }
{
    if comes_before(q, r) {
        return Next {
            spot: q,
            left: 1,
            right: 0,
        };
    }
    if is_same(q, r) {
        return Next {
            spot: r,
            left: 1,
            right: 1,
        };
    }
    Next {
        spot: r,
        left: 0,
        right: 1,
    }
}

fn push_from(out: &mut Vec<Spot>, spots: &[Spot], from: usize) -> Result<(), Memory>
    requires { from ≤ length spots.now }
    ensures { IfOk result (λ _. out.new.items ≡ out.old.items ++ drop from spots.now) }
{
    for i in from..spots.len() {
        push(out, spots[i])?;
    }
    Ok(())
}

fn merged(alloc: Global, left: &[Spot], right: &[Spot]) -> Result<Vec<Spot>, Memory>
    requires left { AreRising left.now }
    requires right { AreRising right.now }
    ensures { IfOk result (λ v. v.items ≡ all_spots left.now right.now) }
{
    let mut out = Vec::new(alloc);
    let mut i = 0;
    let mut j = 0;
    while i < left.len() && j < right.len() {
        let next = next_of(left[i], right[j]);
        push(&mut out, next.spot)?;
        i += next.left;
        j += next.right;
    }
    push_from(&mut out, left, i)?;
    push_from(&mut out, right, j)?;
    Ok(out)
}

/// The places of both lists, by block and offset, each once: those of the first are put into their places in the
/// second. Costs both lists where both are rising.
pub fn all_spots(
    alloc: Global,
    left: &[(u32, u32)],
    right: &[(u32, u32)],
) -> Result<Vec<(u32, u32)>, Memory>
    ensures { IfOk result (λ v. v.items ≡ all_spots left.now right.now) }
{
    if are_rising(left) && are_rising(right) {
        merged(alloc, left, right)
    } else {
        put_each(alloc, left, right)
    }
}
