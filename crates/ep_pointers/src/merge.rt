//! Lists of targets, in order of blocks.

ghost use Rattle.std.specs.Prelude.{◌≡◌, ◌↔◌, ◌≤◌, ◌<◌, ◌++◌, drop, length, slice_index_or, IfOk, IfSome, IsTrue};
ghost use Rattle.std.specs.Prelude.{nat_eq, not};
ghost use Rattle.std.specs.List.{filter};
ghost use Rattle.ep_pointers.specs.Value.{IsRising, together, are_within, is_offset_within};
ghost use Rattle.ep_pointers.specs.Parts.{from_block, offset_first, united, first_of};

use ep_domain::Num;
use ep_int::Memory;
use std::alloc::Global;

/// How the offsets of two values at one block are put together.
#[derive(Clone, Copy)]
pub enum Union {
    Join,
    Widen,
}

impl Union {
    fn of<N: Num>(self, x: &N, y: &N) -> N
        ensures { result ≡ united N.ops self x.now y.now }
    {
        match self {
            Union::Join => x.join(y),
            Union::Widen => x.widen(y),
        }
    }

    // What comes first of two lists that begin with these targets.
    fn first<N: Num>(self, x: (u32, N), y: (u32, N)) -> First<N>
        ensures { result ≡ first_of (united N.ops self) x y }
    {
        if x.0 < y.0 {
            First {
                target: x,
                left: 1,
                right: 0,
            }
        } else if y.0 < x.0 {
            First {
                target: y,
                left: 0,
                right: 1,
            }
        } else {
            First {
                target: (x.0, self.of(&x.1, &y.1)),
                left: 1,
                right: 1,
            }
        }
    }
}

/// The first target of two lists, and how many it takes from each.
#[derive(Clone, Copy)]
pub struct First<N> {
    target: (u32, N),
    left: usize,
    right: usize,
}

/// The targets of both lists, put together where a block is in both.
pub fn together<N: Num>(
    alloc: Global,
    union: Union,
    x: &[(u32, N)],
    y: &[(u32, N)],
) -> Result<Vec<(u32, N)>, Memory>
    requires left { IsRising x.now }
    requires right { IsRising y.now }
    ensures { IfOk result (λ v. v.items ≡ together (united N.ops union) x.now y.now) }
{
    let mut targets = Vec::new(alloc);
    let mut i = 0;
    let mut j = 0;
    while i < x.len() && j < y.len() {
        let first = union.first(x[i], y[j]);
        targets.push(first.target).map_err(|_| Memory)?;
        i += first.left;
        j += first.right;
    }
    append(&mut targets, x, i)?;
    append(&mut targets, y, j)?;
    Ok(targets)
}

// Puts what is left of a list from a place on behind these.
fn append<N: Num>(targets: &mut Vec<(u32, N)>, more: &[(u32, N)], from: usize) -> Result<(), Memory>
    requires { from ≤ length more.now }
    ensures { IfOk result (λ _. targets.new.items ≡ targets.old.items ++ drop from more.now) }
{
    targets
        .extend_from_slice(more.split_at(from).1)
        .map_err(|_| Memory)
}

/// From a place on, the place of the first block that is not below this one.
pub fn place_from<N: Num>(targets: &[(u32, N)], from: usize, block: u32) -> usize
    requires { from ≤ length targets.now }
    ensures within { result ≤ length targets.now }
    ensures rest { drop result targets.now ≡ from_block block (drop from targets.now) }
{
    let mut at = from;
    while at < targets.len() && targets[at].0 < block {
        at += 1;
    }
    at
}

/// The offsets at a block, where it stands at this place.
pub fn offset_there<N: Num>(targets: &[(u32, N)], at: usize, block: u32) -> Option<N>
    ensures { result ≡ offset_first (drop at targets.now) block }
{
    match targets.get(at) {
        Some(t) if t.0 == block => Some(t.1),
        _ => None,
    }
}

/// Whether the second list has each block of the first, with its offsets.
pub fn are_within<N: Num>(x: &[(u32, N)], y: &[(u32, N)]) -> bool
    requires left { IsRising x.now }
    requires right { IsRising y.now }
    ensures { result ≡ are_within N.ops x.now y.now }
{
    let mut at = 0;
    for t in x {
        at = place_from(y, at, t.0);
        if !is_offset_within(&t.1, offset_there(y, at, t.0)) {
            return false;
        }
    }
    true
}

fn is_offset_within<N: Num>(x: &N, y: Option<N>) -> bool
    ensures { result ≡ is_offset_within N.ops x.now y }
{
    match y {
        Some(y) => x.within(&y),
        None => false,
    }
}

fn is_same_target<N: Num>(t: &(u32, N), u: &(u32, N)) -> bool
    ensures { IsTrue result ↔ (t.now ≡ u.now) }
{
    if t.0 != u.0 {
        return false;
    }
    t.1.is_same(&u.1)
}

/// Whether both are one list.
pub fn are_same<N: Num>(x: &[(u32, N)], y: &[(u32, N)]) -> bool
    ensures { IsTrue result ↔ (x.now ≡ y.now) }
{
    if x.len() != y.len() {
        return false;
    }
    for i in 0..x.len() {
        if !is_same_target(&x[i], &y[i]) {
            return false;
        }
    }
    true
}

/// Takes the target of a block away.
pub fn forget<N: Num>(targets: &mut Vec<(u32, N)>, block: u32)
    ensures { targets.new.items ≡ filter (λ t. not (nat_eq t.0 block)) targets.old.items }
{
    targets.retain(|t| t.0 != block);
}
