//! The places of a scalar at an address, and what may go wrong there.

ghost use Rattle.std.specs.Prelude.{◌≡◌, ◌++◌, ◌∷◌, [], ◌<◌, ◌≤◌, IfOk, Some, slice_get, nat_eq, not, if◌then◌else◌};
ghost use Rattle.std.specs.Prelude.{◌/◌, ◌&&◌, pos};
ghost use Rattle.std.specs.Option.{option_map};
ghost use Rattle.ep_int.specs.Types.{residue};
ghost use Rattle.ep_domain.specs.Domain.{Ops};
ghost use Rattle.ep_pointers.specs.Sum.{hull};
ghost use Rattle.ep_evaluation.specs.Accesses as spec;
ghost use Rattle.ep_eval_places.specs.Offsets.{nearest_offset};
ghost use Rattle.ep_evaluation.specs.Evaluation as evaluation;

use ep_domain::Num;
use ep_equalities::SideValue;
use ep_eval_sides::pairs::shows_if;
use ep_eval_sides::sides::pointer;
use ep_int::Memory;
use ep_pointers::PtrValue;
use std::alloc::Global;

type Range = (i128, i128);

/// The blocks that a pointer may point into, with the offsets there.
pub fn targets_of<N: Num>(p: Option<&PtrValue<N>>) -> &[(u32, N)]
    ensures { result.now ≡ evaluation.targets_of N.ops [] (option_map (λ p. p.now) p.entry) }
{
    match p {
        None => &[],
        Some(p) => p.targets(),
    }
}

/// The blocks that the pointer of a side may point into, with the offsets there.
pub fn targets<N: Num>(x: &SideValue<N>) -> &[(u32, N)]
    ensures { result.now ≡ evaluation.targets_of N.ops [] (evaluation.pointer N.ops x.now) }
{
    targets_of(pointer(x))
}

/// The size of a block, if it is one.
pub fn size_of(sizes: &[u32], block: u32) -> Option<u32>
    ensures { result ≡ slice_get sizes.now block }
{
    sizes.get(block as usize).copied()
}

// ---- where an access may be

fn push_spot(out: &mut Vec<(u32, u32)>, block: u32, offset: u32) -> Result<(), Memory>
    ensures { IfOk result (λ _. out.new.items ≡ out.old.items ++ (block, offset) ∷ []) }
{
    out.push((block, offset)).map_err(|_| Memory)
}

/// The number, or the nearest one that is an offset into a block of the size, or its end.
pub fn nearest_offset(size: u32, z: i128) -> u32
    ensures { result ≡ nearest_offset size z }
{
    if z <= 0 {
        return 0;
    }
    if i128::from(size) <= z {
        return size;
    }
    z as u32
}

// The number of multiples of n below the least offset, or one less.
fn first_index<N: Num>(size: u32, n: u32, offsets: &N) -> u32
    requires { 0 < n }
    ensures { result ≡ nearest_offset size (N.ops.range offsets.now).0 / n }
{
    nearest_offset(size, offsets.range().0) / n
}

fn last_index<N: Num>(size: u32, n: u32, offsets: &N) -> u32
    requires { 0 < n }
    ensures { result ≡ nearest_offset size (N.ops.range offsets.now).1 / n }
{
    nearest_offset(size, offsets.range().1) / n
}

/// Puts a place behind, if it is there.
pub fn push_if(
    out: &mut Vec<(u32, u32)>,
    there: bool,
    block: u32,
    offset: u32,
) -> Result<(), Memory>
    ensures { IfOk result (λ _. out.new.items ≡ out.old.items ++ (if there then (block, offset) ∷ [] else [])) }
{
    if there {
        return push_spot(out, block, offset);
    }
    Ok(())
}

/// Whether an offset is among these.
pub fn holds_offset<N: Num>(offsets: &N, offset: u32) -> bool
    ensures { result ≡ N.ops.holds offsets.now (pos offset) }
{
    offsets.holds(i128::from(offset))
}

// Multiples of n alone are looked at, from about the least offset to the greatest.
fn push_held<N: Num>(
    out: &mut Vec<(u32, u32)>,
    n: u32,
    block: u32,
    offsets: &N,
    size: u32,
) -> Result<(), Memory>
    requires some { 0 < n }
    requires room { n ≤ size }
    ensures { IfOk result (λ _. out.new.items
        ≡ out.old.items ++ spec.held_spots N.ops n n (block, offsets.now) (Some size)) }
{
    let first = first_index(size, n, offsets);
    let stop = last_index(size, n, offsets).min((size - n) / n) + 1;
    for i in first.min(stop)..stop {
        let offset = i * n;
        push_if(out, holds_offset(offsets, offset), block, offset)?;
    }
    Ok(())
}

fn push_spots<N: Num>(
    out: &mut Vec<(u32, u32)>,
    n: u32,
    block: u32,
    offsets: &N,
    size: Option<u32>,
) -> Result<(), Memory>
    requires { 0 < n }
    ensures { IfOk result (λ _. out.new.items
        ≡ out.old.items ++ spec.held_spots N.ops n n (block, offsets.now) size) }
{
    let Some(size) = size else {
        return Ok(());
    };
    if size < n {
        return Ok(());
    }
    push_held(out, n, block, offsets, size)
}

/// The places of aligned accesses of n bytes that stay in their blocks, by block and offset, in rising order. Costs a
/// look at each multiple of n in the ranges of the offsets.
pub fn spots<N: Num>(
    alloc: Global,
    sizes: &[u32],
    n: u32,
    targets: &[(u32, N)],
) -> Result<Vec<(u32, u32)>, Memory>
    requires { 0 < n }
    ensures { IfOk result (λ v. v.items ≡ spec.spots N.ops sizes.now n n targets.now) }
{
    let mut out = Vec::new(alloc);
    for t in targets {
        push_spots(&mut out, n, t.0, &t.1, size_of(sizes, t.0))?;
    }
    Ok(out)
}

// ---- what may go wrong

fn leaves_block<N: Num>(size: Option<u32>, n: u32, offsets: &N) -> bool
    ensures { result ≡ spec.leaves_block size n (N.ops.range offsets.now) }
{
    match size {
        None => true,
        Some(size) => {
            offsets.range().0 < 0 || i128::from(size) < offsets.range().1 + i128::from(n)
        }
    }
}

fn may_leave<N: Num>(sizes: &[u32], n: u32, targets: &[(u32, N)]) -> bool
    ensures { result ≡ spec.may_leave N.ops sizes.now n targets.now }
{
    targets
        .iter()
        .any(|t| leaves_block(size_of(sizes, t.0), n, &t.1))
}

fn hull(x: Range, y: Range) -> Range
    ensures { result ≡ hull x y }
{
    (x.0.min(y.0), x.1.max(y.1))
}

// The least range of the offsets of these targets and of a first one.
fn offsets_range<N: Num>(first: &(u32, N), rest: &[(u32, N)]) -> Range
    ensures { result ≡ spec.offsets_range N.ops first.now rest.now }
{
    let mut shown = first.1.range();
    for t in rest {
        shown = hull(shown, t.1.range());
    }
    shown
}

/// The least range of all offsets, where an access of n bytes may leave its block.
pub fn bounds_of<N: Num>(sizes: &[u32], n: u32, targets: &[(u32, N)]) -> Option<Range>
    ensures { result ≡ spec.bounds_of N.ops sizes.now n targets.now }
{
    match targets {
        [] => None,
        [first, rest @ ..] => shows_if(may_leave(sizes, n, targets), offsets_range(first, rest)),
    }
}

fn is_odd(n: u32, z: i128) -> bool
    requires { 0 < n }
    ensures { result ≡ not (nat_eq (residue n z) 0) }
{
    z.unsigned_abs() % u128::from(n) != 0
}

fn is_odd_held<N: Num>(n: u32, offsets: &N, z: i128) -> bool
    requires { 0 < n }
    ensures { result ≡ (N.ops.holds offsets.now z && not (nat_eq (residue n z) 0)) }
{
    offsets.holds(z) && is_odd(n, z)
}

fn least<N: Num>(offsets: &N) -> i128
    ensures { result ≡ (N.ops.range offsets.now).0 }
{
    offsets.range().0
}

fn greatest<N: Num>(offsets: &N) -> i128
    ensures { result ≡ (N.ops.range offsets.now).1 }
{
    offsets.range().1
}

// From a number on, none is held before this one.
fn next_held<N: Num>(offsets: &N, z: i128, high: i128) -> Option<i128>
    ensures { result ≡ option_map (λ e. e.0) (N.ops.edges offsets.now z high) }
{
    match offsets.edges(z, high) {
        None => None,
        Some((low, _)) => Some(low),
    }
}

// Whether some number is held that is no multiple of n. Costs a look at each number held, until there is one.
fn holds_odd<N: Num>(n: u32, offsets: &N) -> bool
    requires { 0 < n }
    ensures { result ≡ spec.holds_odd N.ops n offsets.now }
{
    let high = greatest(offsets);
    let mut z = least(offsets);
    while z <= high {
        let Some(low) = next_held(offsets, z, high) else {
            return false;
        };
        if is_odd_held(n, offsets, low) {
            return true;
        }
        z = low + 1;
    }
    false
}

/// Whether some offset may be no multiple of n.
pub fn may_be_odd<N: Num>(n: u32, targets: &[(u32, N)]) -> bool
    requires { 0 < n }
    ensures { result ≡ spec.may_be_odd N.ops n targets.now }
{
    targets.iter().any(|t| holds_odd(n, &t.1))
}
