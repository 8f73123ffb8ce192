//! Places that are one, and places that are written as one of several.

ghost use Rattle.std.specs.Prelude.{◌≡◌, ◌&&◌, ◌||◌, ◌++◌, ◌∷◌, [], not, IfOk};
ghost use Rattle.std.specs.List.{list_any};
ghost use Rattle.ep_cell_ranges.specs.Spots.{is_same_spot};
ghost use Rattle.ep_core.specs.Runs.{left, right};
ghost use Rattle.ep_transfers.specs.Copies as spec;
ghost use Rattle.ep_transfers.specs.Places as places_spec;
ghost use Rattle.ep_transfer_places.specs.Room.{view};
ghost use Rattle.ep_transfer_writes.specs.Waiting.{one_spot};
ghost use Rattle.ep_transfer_copies.specs.Chosen.{is_loose, both_of};

use ep_domain::Num;
use ep_int::Memory;
use ep_transfer_places::Places;
use ep_transfer_places::places::is_one;
use std::alloc::Global;

pub(crate) type Spot = (u32, u32);

pub(crate) fn is_same_spot(q: Spot, r: Spot) -> bool
    ensures { result ≡ is_same_spot q r }
{
    q.0 == r.0 && q.1 == r.1
}

// ---- an object may be assigned to itself

fn push(out: &mut Vec<Spot>, q: Spot) -> Result<(), Memory>
    ensures { IfOk result (λ _. out.new.items ≡ out.old.items ++ q ∷ []) }
{
    out.push(q).map_err(|_| Memory)
}

fn push_all(out: &mut Vec<Spot>, spots: &[Spot]) -> Result<(), Memory>
    ensures { IfOk result (λ _. out.new.items ≡ out.old.items ++ spots.now) }
{
    for q in spots {
        push(out, *q)?;
    }
    Ok(())
}

fn is_among(q: Spot, spots: &[Spot]) -> bool
    ensures { result ≡ list_any (is_same_spot q) spots.now }
{
    spots.iter().any(|p| is_same_spot(q, *p))
}

// One place that is also read, maybe beside others.
fn is_loose(to: &[Spot], from: &[Spot]) -> bool
    ensures { result ≡ is_loose to.now from.now }
{
    match to {
        [] => false,
        [q] => is_among(*q, from),
        [_, _, ..] => false,
    }
}

fn loosened(alloc: Global, to: &[Spot], from: &[Spot]) -> Result<Vec<Spot>, Memory>
    ensures { IfOk result (λ v. v.items ≡ spec.loosened to.now from.now) }
{
    let mut out = Vec::new(alloc);
    push_all(&mut out, to)?;
    if !is_loose(to, from) {
        return Ok(out);
    }
    push_all(&mut out, to)?;
    Ok(out)
}

/// The places that are written, where one of them that is also read counts as one of several.
pub(crate) fn loosened_places(alloc: Global, to: &Places, from: &Places) -> Result<Places, Memory>
    ensures { IfOk result (λ p. view p ≡ spec.loosened_places (view to.now) (view from.now)) }
{
    let left = loosened(alloc, &to.left, &from.left)?;
    let right = loosened(alloc, &to.right, &from.right)?;
    Ok(Places { left, right })
}

// ---- one place of both sides

fn one_with(q: Spot, right: &[Spot]) -> Option<Spot>
    ensures { result ≡ one_spot (q ∷ []) right.now }
{
    match right {
        [] => None,
        [r] => {
            if is_same_spot(q, *r) {
                return Some(q);
            }
            None
        }
        [_, _, ..] => None,
    }
}

fn one_spot(left: &[Spot], right: &[Spot]) -> Option<Spot>
    ensures { result ≡ one_spot left.now right.now }
{
    match left {
        [] => None,
        [q] => one_with(*q, right),
        [_, _, ..] => None,
    }
}

/// The one place that both sides write, and the one that both read.
pub(crate) fn one_move(to: &Places, from: &Places) -> Option<(Spot, Spot)>
    ensures { result ≡ both_of (one_spot to.now.left.items to.now.right.items)
        (one_spot from.now.left.items from.now.right.items) }
{
    match one_spot(&to.left, &to.right) {
        None => None,
        Some(q) => match one_spot(&from.left, &from.right) {
            None => None,
            Some(p) => Some((q, p)),
        },
    }
}

// ---- how both sides write

/// One place goes to one.
pub(crate) fn is_one_to_one(to: &[Spot], from: &[Spot]) -> bool
    ensures { result ≡ (places_spec.is_one to.now && places_spec.is_one from.now) }
{
    is_one(to) && is_one(from)
}

fn is_one_like<N: Num>(q: Spot, right: &[Spot]) -> bool
    ensures { result ≡ spec.write_alike N.ops (q ∷ []) right.now }
{
    match right {
        [] => false,
        [r] => is_same_spot(q, *r),
        [_, _, ..] => false,
    }
}

// Both sides write one place, the same, or both several.
fn write_alike<N: Num>(left: &[Spot], right: &[Spot]) -> bool
    ensures { result ≡ spec.write_alike N.ops left.now right.now }
{
    match left {
        [] => !is_one(right),
        [q] => is_one_like::<N>(*q, right),
        [_, _, ..] => !is_one(right),
    }
}

/// On neither side one place goes to one, and both write alike.
pub(crate) fn go_together<N: Num>(to: &Places, from: &Places) -> bool
    ensures { result ≡ (not (spec.is_one_to_one N.ops (view to.now) (view from.now) left
        || spec.is_one_to_one N.ops (view to.now) (view from.now) right)
        && spec.write_alike N.ops (view to.now).left (view to.now).right) }
{
    !(is_one_to_one(&to.left, &from.left) || is_one_to_one(&to.right, &from.right))
        && write_alike::<N>(&to.left, &to.right)
}
