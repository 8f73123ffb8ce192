//! What a pointer may be.

ghost use Rattle.std.specs.Prelude.{◌≡◌, ◌↔◌, ◌≤◌, ◌<◌, IsTrue, IfOk};
ghost use Rattle.ep_pointers.specs.Value.{HasOneMember, IsRising, null_alone, one_target, is_within, HoldsAllOf};
ghost use Rattle.ep_pointers.specs.Value.{join_of, widening_of, HoldsBoth, HasOffsetsOf, KeepsRanks};
ghost use Rattle.ep_pointers.specs.Value.{without, LosesBlock};
ghost use Rattle.ep_pointers.specs.Sum.{move, moved, of_targets, is_out, shown_of};
ghost use Rattle.ep_pointers.specs.Sum.{HoldsSums, SaysLeaves, ShowsLeast, MovesOne, KeepsStride};
ghost use Rattle.ep_pointers.specs.Compare.{comparison_of, AnswersAll, IsOneAnswer};

use crate::compare::{self, Truths};
use crate::merge::{self, Union};
use crate::sum::{Move, PtrSum};
use ep_domain::Num;
use ep_int::{Cmp, Memory};
use std::alloc::Global;
use std::marker::Model;

/// What a pointer may be: null, and targets, which are blocks in strictly rising order, each with the offsets there.
#[derive(Drop)]
pub struct PtrValue<N> {
    null: bool,
    targets: Vec<(u32, N)>,
}

impl<N> Model for PtrValue<N> {
    ghost use Rattle.ep_pointers.specs.Value.{Pointers, pointers, IsRising};

    ghost Value = { Pointers N };

    ghost view = { λ p. pointers p.null p.targets.items };

    ghost invariant = { λ p. IsRising p.targets.items };
}

impl<N: Num> PtrValue<N> {
    /// Null alone. Takes no memory.
    pub fn null(alloc: Global) -> Self
        ensures { result ≡ null_alone }
    {
        PtrValue {
            null: true,
            targets: Vec::new(alloc),
        }
    }

    /// One block at these offsets, and not null.
    pub fn to(alloc: Global, block: u32, offset: N) -> Result<Self, Memory>
        ensures { IfOk result (λ p. p ≡ one_target block offset) }
    {
        let mut targets = Vec::new(alloc);
        match targets.push((block, offset)) {
            Ok(()) => Ok(PtrValue {
                null: false,
                targets,
            }),
            Err(_) => Err(Memory),
        }
    }

    /// All that it may be but null, or `None` where that is nothing.
    pub fn without_null(self) -> Option<Self>
        ensures { result ≡ of_targets self.targets }
    {
        Self::of_targets(self.targets)
    }

    /// Whether it may be null.
    pub fn may_be_null(&self) -> bool
        ensures { result ≡ self.now.null }
    {
        self.null
    }

    /// The targets, by block.
    pub fn targets(&self) -> &[(u32, N)]
        ensures all { result.now ≡ self.now.targets }
        ensures rising { IsRising self.now.targets }
    {
        self.targets.as_slice()
    }

    /// The same.
    pub fn copy(&self) -> Result<Self, Memory>
        ensures { IfOk result (λ p. p ≡ self.now) }
    {
        match Vec::from_slice(*self.targets.allocator(), &self.targets) {
            Ok(targets) => Ok(PtrValue {
                null: self.null,
                targets,
            }),
            Err(_) => Err(Memory),
        }
    }

    /// Whether both are one value.
    pub fn is_same(&self, o: &Self) -> bool
        ensures { IsTrue result ↔ (self.now ≡ o.now) }
    {
        if self.null != o.null {
            return false;
        }
        merge::are_same(&self.targets, &o.targets)
    }

    /// Whether the other surely may be all that this one may be.
    pub fn within(&self, o: &Self) -> bool
        ensures value { result ≡ is_within N.ops self.now o.now }
        ensures holds { IsTrue result → HoldsAllOf N.ops self.now o.now }
    {
        (!self.null || o.null) && merge::are_within(&self.targets, &o.targets)
    }

    /// What either may be.
    pub fn join(&self, o: &Self) -> Result<Self, Memory>
        ensures value { IfOk result (λ p. p ≡ join_of N.ops self.now o.now) }
        ensures offsets { IfOk result (HasOffsetsOf N.ops.join self.now o.now) }
        ensures holds { IfOk result (HoldsBoth N.ops self.now o.now) }
    {
        let alloc = *self.targets.allocator();
        let targets = merge::together(alloc, Union::Join, &self.targets, &o.targets)?;
        Ok(PtrValue {
            null: self.null | o.null,
            targets,
        })
    }

    /// What either may be and more, so that a value that is widened again and again soon stays.
    pub fn widen(&self, o: &Self) -> Result<Self, Memory>
        ensures value { IfOk result (λ p. p ≡ widening_of N.ops self.now o.now) }
        ensures offsets { IfOk result (HasOffsetsOf N.ops.widen self.now o.now) }
        ensures holds { IfOk result (HoldsBoth N.ops self.now o.now) }
        // In a domain with ranks, whatever is not yet there makes null or a block new, or lowers a rank.
        ensures ranks { N.ops.height < 4294967295 → IfOk result (KeepsRanks N.ops self.now o.now) }
    {
        let alloc = *self.targets.allocator();
        let targets = merge::together(alloc, Union::Widen, &self.targets, &o.targets)?;
        Ok(PtrValue {
            null: self.null | o.null,
            targets,
        })
    }

    /// The pointer after `delta` units were added, or subtracted. `sizes` has the sizes of the blocks.
    pub fn add(
        &self,
        delta: &N,
        unit: u32,
        subtract: bool,
        sizes: &[u32],
    ) -> Result<PtrSum<N>, Memory>
        requires { 1 ≤ unit }
        ensures value { IfOk result (λ s. s.value ≡ moved N.ops (move delta.now unit subtract) sizes.now self.now) }
        ensures null { IfOk result (λ s. s.null ≡ self.now.null) }
        ensures out { IfOk result (λ s. s.out ≡ is_out N.ops (move delta.now unit subtract) sizes.now self.now) }
        ensures shown { IfOk result (λ s. s.shown ≡ shown_of N.ops (move delta.now unit subtract) self.now.targets) }
        // Each sum that stays in its block is held.
        ensures holds { IfOk result (λ s. HoldsSums N.ops (move delta.now unit subtract) sizes.now self.now s.value) }
        ensures leaves { IfOk result (λ s. SaysLeaves N.ops (move delta.now unit subtract) sizes.now self.now s.out) }
        ensures least { IfOk result (λ s. ShowsLeast N.ops (move delta.now unit subtract) self.now s.out s.shown) }
        ensures one { IfOk result (λ s. MovesOne N.ops (move delta.now unit subtract) sizes.now self.now s.value) }
        ensures strides { IfOk result (λ s. KeepsStride N.ops (move delta.now unit subtract) self.now s.value) }
    {
        let step = Move {
            delta: *delta,
            unit,
            subtract,
        };
        let targets = step.targets(*self.targets.allocator(), &self.targets, sizes)?;
        Ok(PtrSum {
            value: Self::of_targets(targets),
            null: self.null,
            out: step.may_leave(&self.targets, sizes),
            shown: step.shown(&self.targets),
        })
    }

    /// These targets and not null, or `None` where there is no target.
    pub fn of_targets(targets: Vec<(u32, N)>) -> Option<Self>
        requires { IsRising targets.items }
        ensures { result ≡ of_targets targets.items }
    {
        if targets.is_empty() {
            None
        } else {
            Some(PtrValue {
                null: false,
                targets,
            })
        }
    }

    /// What a comparison may answer.
    pub fn compare(c: Cmp, x: &Self, y: &Self) -> Truths
        ensures value { result ≡ comparison_of N.ops c x.now y.now }
        ensures answers { AnswersAll N.ops c x.now y.now result }
        ensures one { HasOneMember N.ops x.now → HasOneMember N.ops y.now → IsOneAnswer result }
    {
        let both_null = x.null & y.null;
        let null_and_block = (x.null & !y.targets.is_empty()) | (!x.targets.is_empty() & y.null);
        let apart = null_and_block | compare::in_two_blocks(&x.targets, &y.targets);
        let (yes, no) = compare::in_one_block(c, &x.targets, &y.targets);
        compare::answers(c, both_null, apart, yes, no)
    }

    /// Takes the target of a block away.
    pub fn forget(&mut self, block: u32)
        ensures value { self.new ≡ without block self.old }
        ensures others { LosesBlock N.ops block self.old self.new }
    {
        merge::forget(&mut self.targets, block);
    }
}
