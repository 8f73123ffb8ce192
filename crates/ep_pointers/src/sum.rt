//! A pointer and a number of units.

ghost use Rattle.std.specs.Prelude.{◌≡◌, ◌++◌, [], IfOk, slice_get, fold};
ghost use Rattle.ep_int.specs.Arith.{IsOfSomeType};
ghost use Rattle.ep_pointers.specs.Sum.{exact_at, bytes_of, offsets_and, cut_to, moved_targets, put};
ghost use Rattle.ep_pointers.specs.Sum.{exact_range, may_leave, leaves, shown_of, hull};

use crate::value::PtrValue;
use ep_domain::Num;
use ep_int::{BinOp, IntType, Memory};
use std::alloc::Global;

/// A pointer after a number of units was added or subtracted.
#[derive(Drop)]
pub struct PtrSum<N> {
    /// The results that stay in their blocks, where there may be one.
    pub value: Option<PtrValue<N>>,
    /// Whether the pointer may be null.
    pub null: bool,
    /// Whether a result may be outside its block.
    pub out: bool,
    /// The range of results, in bytes from the beginning of the block. It means something only with `out`.
    pub shown: (i128, i128),
}

/// What is added to a pointer, or subtracted: so many units.
#[derive(Clone, Copy)]
pub struct Move<N> {
    pub delta: N,
    pub unit: u32,
    pub subtract: bool,
}

impl<N: Num> Move<N> {
    /// The targets in whose block some result stays.
    pub fn targets(
        &self,
        alloc: Global,
        targets: &[(u32, N)],
        sizes: &[u32],
    ) -> Result<Vec<(u32, N)>, Memory>
        ensures { IfOk result (λ v. v.items ≡ moved_targets N.ops self.now sizes.now targets.now) }
    {
        let bytes = self.bytes();
        let mut moved = Vec::new(alloc);
        for t in targets {
            put(
                &mut moved,
                t.0,
                self.offset(&bytes, &t.1, size_of(sizes, t.0)),
            )?;
        }
        Ok(moved)
    }

    // The number of units in bytes.
    fn bytes(&self) -> Option<N>
        ensures { result ≡ bytes_of N.ops self.now.delta self.now.unit }
    {
        N::op(
            BinOp::Mul,
            IntType::I64,
            &self.delta,
            &N::single(i128::from(self.unit)),
        )
        .value
    }

    // What of these offsets stays in a block of the size.
    fn offset(&self, bytes: &Option<N>, offset: &N, size: Option<u32>) -> Option<N>
        ensures { result ≡ cut_to N.ops size (offsets_and N.ops self.now.subtract offset.now bytes.now) }
    {
        let op = if self.subtract {
            BinOp::Sub
        } else {
            BinOp::Add
        };
        let Some(bytes) = bytes else { return None };
        let Some(size) = size else { return None };
        let moved = N::op(op, IntType::I64, offset, bytes).value?;
        moved.cut(0, i128::from(size))
    }

    // The exact results of the ranges of these offsets and of the number of units.
    fn exact(&self, offset: &N) -> (i128, i128)
        ensures { result ≡ exact_range N.ops self.now offset.now }
    {
        let (low, high) = offset.range();
        let (least, most) = self.delta.range();
        if self.subtract {
            (
                exact_at(true, self.unit, low, most),
                exact_at(true, self.unit, high, least),
            )
        } else {
            (
                exact_at(false, self.unit, low, least),
                exact_at(false, self.unit, high, most),
            )
        }
    }

    /// Whether the ranges allow a result outside its block.
    pub fn may_leave(&self, targets: &[(u32, N)], sizes: &[u32]) -> bool
        ensures { result ≡ may_leave N.ops self.now sizes.now targets.now }
    {
        targets
            .iter()
            .any(|t| leaves(size_of(sizes, t.0), self.exact(&t.1)))
    }

    /// The least range that has the exact results of all targets.
    pub fn shown(&self, targets: &[(u32, N)]) -> (i128, i128)
        ensures { result ≡ shown_of N.ops self.now targets.now }
    {
        match targets.split_first() {
            Some((first, rest)) => self.shown_with(self.exact(&first.1), rest),
            None => (0, 0),
        }
    }

    // The least range that has this one and the exact results of these targets.
    fn shown_with(&self, range: (i128, i128), targets: &[(u32, N)]) -> (i128, i128)
        ensures { result ≡ fold (λ e u. hull e (exact_range N.ops self.now u.1)) range targets.now }
    {
        let mut shown = range;
        for t in targets {
            shown = hull(shown, self.exact(&t.1));
        }
        shown
    }
}

// The exact result of a number of units at an offset.
fn exact_at(subtract: bool, unit: u32, offset: i128, count: i128) -> i128
    requires offset { IsOfSomeType offset }
    requires count { IsOfSomeType count }
    ensures { result ≡ exact_at subtract unit offset count }
{
    let bytes = count * i128::from(unit);
    if subtract {
        offset - bytes
    } else {
        offset + bytes
    }
}

// The size of a block, if the program has it.
fn size_of(sizes: &[u32], block: u32) -> Option<u32>
    ensures { result ≡ slice_get sizes.now block }
{
    sizes.get(block as usize).copied()
}

// One target more, where there are offsets.
fn put<N: Num>(targets: &mut Vec<(u32, N)>, block: u32, offset: Option<N>) -> Result<(), Memory>
    ensures { IfOk result (λ _. targets.new.items ≡ targets.old.items ++ put block offset []) }
{
    match offset {
        Some(offset) => targets.push((block, offset)).map_err(|_| Memory),
        None => Ok(()),
    }
}

// Whether a range has numbers outside a block of the size.
fn leaves(size: Option<u32>, range: (i128, i128)) -> bool
    ensures { result ≡ leaves size range }
{
    match size {
        Some(size) => range.0 < 0 || i128::from(size) < range.1,
        None => true,
    }
}

fn hull(x: (i128, i128), y: (i128, i128)) -> (i128, i128)
    ensures { result ≡ hull x y }
{
    (x.0.min(y.0), x.1.max(y.1))
}
