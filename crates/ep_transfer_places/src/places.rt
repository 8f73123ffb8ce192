//! The places that an access may have on each side.

ghost use Rattle.std.specs.Prelude.{◌≡◌, ◌<◌, ◌≤◌, ◌+◌, ◌^◌, ◌++◌, ◌∷◌, [], IfOk, is_some};
ghost use Rattle.ep_transfers.specs.Places as spec;
ghost use Rattle.ep_transfer_places.specs.Room.{HaveRoom, BothHaveRoom, view};

use crate::runs;
use ep_domain::Num;
use ep_equalities::{Mode, PairValue, SideValue};
use ep_eval_places::places::{spots, targets};
use ep_int::Memory;
use std::alloc::Global;

/// Places of an access on each side, by block and offset, in rising order.
#[derive(Drop)]
pub struct Places {
    pub left: Vec<(u32, u32)>,
    pub right: Vec<(u32, u32)>,
}

/// The places of a scalar of n bytes at an address. Costs a look at each multiple of n in the ranges of its offsets.
pub fn aligned_places<N: Num>(
    alloc: Global,
    sizes: &[u32],
    n: u32,
    a: &PairValue<N>,
) -> Result<Places, Memory>
    requires { 0 < n }
    ensures value { IfOk result (λ p. view p ≡ spec.places_of N.ops sizes.now n n a.now) }
    ensures room { IfOk result (λ p. BothHaveRoom n (view p)) }
{
    let left = spots(alloc, sizes, n, targets(&a.left))?;
    let right = spots(alloc, sizes, n, targets(&a.right))?;
    Ok(Places { left, right })
}

/// The places of a run of n bytes at an address. Costs a look at each number in the ranges of its offsets.
pub fn run_places<N: Num>(
    alloc: Global,
    sizes: &[u32],
    n: u32,
    a: &PairValue<N>,
) -> Result<Places, Memory>
    ensures value { IfOk result (λ p. view p ≡ spec.places_of N.ops sizes.now n 1 a.now) }
    ensures room { IfOk result (λ p. BothHaveRoom n (view p)) }
{
    let left = runs::spots(alloc, sizes, n, targets(&a.left))?;
    let right = runs::spots(alloc, sizes, n, targets(&a.right))?;
    Ok(Places { left, right })
}

// ---- tests

fn is_some_place(spots: &[(u32, u32)]) -> bool
    ensures { result ≡ spec.is_some_place spots.now }
{
    match spots {
        [] => false,
        [_, ..] => true,
    }
}

/// Whether each running side has a place.
pub fn has_places(mode: Mode, places: &Places) -> bool
    ensures { result ≡ spec.has_places mode (view places.now) }
{
    match mode {
        Mode::Both => is_some_place(&places.left) && is_some_place(&places.right),
        Mode::Left => is_some_place(&places.left),
        Mode::Right => is_some_place(&places.right),
    }
}

fn has_value<N: Num>(x: &SideValue<N>) -> bool
    ensures { result ≡ is_some x.now.value }
{
    x.value.is_some()
}

/// Whether each running side has a value.
pub fn has_values<N: Num>(mode: Mode, x: &PairValue<N>) -> bool
    ensures { result ≡ spec.has_values mode x.now }
{
    match mode {
        Mode::Both => has_value(&x.left) && has_value(&x.right),
        Mode::Left => has_value(&x.left),
        Mode::Right => has_value(&x.right),
    }
}

/// Whether there is just one place.
pub fn is_one(spots: &[(u32, u32)]) -> bool
    ensures { result ≡ spec.is_one spots.now }
{
    match spots {
        [] => false,
        [_] => true,
        [_, _, ..] => false,
    }
}

/// Whether each running side has just one place.
pub fn are_one(mode: Mode, places: &Places) -> bool
    ensures { result ≡ spec.on_all mode (λ s. spec.is_one (spec.at_side (view places.now) s)) }
{
    match mode {
        Mode::Both => is_one(&places.left) && is_one(&places.right),
        Mode::Left => is_one(&places.left),
        Mode::Right => is_one(&places.right),
    }
}

// ---- so many bytes further on

fn push_moved(out: &mut Vec<(u32, u32)>, bytes: u32, q: (u32, u32)) -> Result<(), Memory>
    requires { q.1 + (bytes + 1) ≤ 2 ^ 32 }
    ensures { IfOk result (λ _. out.new.items ≡ out.old.items ++ spec.moved_spot bytes q ∷ []) }
{
    out.push((q.0, q.1 + bytes)).map_err(|_| Memory)
}

/// Places so many bytes further on.
pub fn moved_spots(
    alloc: Global,
    bytes: u32,
    spots: &[(u32, u32)],
) -> Result<Vec<(u32, u32)>, Memory>
    requires { HaveRoom (bytes + 1) spots.now }
    ensures { IfOk result (λ v. v.items ≡ spec.moved_spots bytes spots.now) }
{
    let mut out = Vec::new(alloc);
    for q in spots {
        push_moved(&mut out, bytes, *q)?;
    }
    Ok(out)
}

/// The same on both sides.
pub fn moved_places(alloc: Global, bytes: u32, places: &Places) -> Result<Places, Memory>
    requires { BothHaveRoom (bytes + 1) (view places.now) }
    ensures { IfOk result (λ p. view p ≡ spec.moved_places bytes (view places.now)) }
{
    let left = moved_spots(alloc, bytes, &places.left)?;
    let right = moved_spots(alloc, bytes, &places.right)?;
    Ok(Places { left, right })
}
