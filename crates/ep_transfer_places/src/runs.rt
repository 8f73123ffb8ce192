//! The places of a run of bytes at an address.

ghost use Rattle.std.specs.Prelude.{◌≡◌, ◌≤◌, ◌++◌, ◌∷◌, [], IfOk, Some, pos, if◌then◌else◌};
ghost use Rattle.ep_evaluation.specs.Accesses as spec;
ghost use Rattle.ep_eval_places.specs.Offsets.{nearest_offset};

use ep_domain::Num;
use ep_eval_places::places::{holds_offset, nearest_offset, push_if, size_of};
use ep_int::Memory;
use std::alloc::Global;

fn least<N: Num>(last: u32, offsets: &N) -> u32
    ensures { result ≡ nearest_offset last (N.ops.range offsets.now).0 }
{
    nearest_offset(last, offsets.range().0)
}

fn greatest<N: Num>(last: u32, offsets: &N) -> u32
    ensures { result ≡ nearest_offset last (N.ops.range offsets.now).1 }
{
    nearest_offset(last, offsets.range().1)
}

// Offsets up to a last one are looked at, from about the least to the greatest.
fn push_held<N: Num>(
    out: &mut Vec<(u32, u32)>,
    n: u32,
    block: u32,
    offsets: &N,
    size: u32,
) -> Result<(), Memory>
    requires { n ≤ size }
    ensures { IfOk result (λ _. out.new.items
        ≡ out.old.items ++ spec.held_spots N.ops n 1 (block, offsets.now) (Some size)) }
{
    let first = u64::from(least(size - n, offsets));
    let stop = u64::from(greatest(size - n, offsets)) + 1;
    for i in first.min(stop)..stop {
        let offset = i as u32;
        push_if(out, holds_offset(offsets, offset), block, offset)?;
    }
    Ok(())
}

fn push_spots<N: Num>(
    out: &mut Vec<(u32, u32)>,
    n: u32,
    block: u32,
    offsets: &N,
    size: Option<u32>,
) -> Result<(), Memory>
    ensures { IfOk result (λ _. out.new.items
        ≡ out.old.items ++ spec.held_spots N.ops n 1 (block, offsets.now) size) }
{
    let Some(size) = size else {
        return Ok(());
    };
    if size < n {
        return Ok(());
    }
    push_held(out, n, block, offsets, size)
}

/// The places of accesses of n bytes that stay in their blocks, by block and offset, in rising order. Costs a look at
/// each offset in the ranges of the offsets.
pub fn spots<N: Num>(
    alloc: Global,
    sizes: &[u32],
    n: u32,
    targets: &[(u32, N)],
) -> Result<Vec<(u32, u32)>, Memory>
    ensures { IfOk result (λ v. v.items ≡ spec.spots N.ops sizes.now n 1 targets.now) }
{
    let mut out = Vec::new(alloc);
    for t in targets {
        push_spots(&mut out, n, t.0, &t.1, size_of(sizes, t.0))?;
    }
    Ok(out)
}
