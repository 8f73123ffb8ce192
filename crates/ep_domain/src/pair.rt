//! The reduced product of two domains.

ghost use Rattle.std.specs.Prelude.{◌≡◌, IsTrue};
ghost use Rattle.ep_domain.specs.Domain.{Lawful};
ghost use Rattle.ep_domain.specs.Common.{may_pair};

use crate::{Num, Outcome, product};
use ep_int::{BinOp, Cmp, IntType};
use std::alloc::AllocError;

/// What each of two domains says of a number. A pair holds the numbers that both parts hold, and its range is what
/// their ranges have in common: more numbers than one, or one that both parts hold.
pub struct Pair<A: Num, B: Num> {
    pub(crate) left: A,
    pub(crate) right: B,
    ghost may_pair: { Lawful A.ops → Lawful B.ops → IsTrue (may_pair A.ops B.ops left right) },
}

impl<A: Num, B: Num> Copy for Pair<A, B> {}

impl<A: Num, B: Num> Clone for Pair<A, B> {
    fn clone(&self) -> Result<Self, AllocError> {
        Ok(*self)
    }
}

impl<A: Num, B: Num> Pair<A, B> {
    ghost use Rattle.ep_domain.specs.Pairs.{pair_of};

    /// Both as they are. `None` where their ranges have no number in common, or have one alone in common that not both
    /// hold.
    pub fn of(left: A, right: B) -> Option<Self>
        ensures { result ≡ pair_of left right }
    {
        if product::may_pair(&left, &right) {
            Some(Pair { left, right })
        } else {
            None
        }
    }

    /// What the left domain says.
    pub fn left(&self) -> &A
        ensures { result.now ≡ self.now.left }
    {
        &self.left
    }

    /// What the right domain says.
    pub fn right(&self) -> &B
        ensures { result.now ≡ self.now.right }
    {
        &self.right
    }
}

impl<A: Num, B: Num> Num for Pair<A, B> {
    ghost use Rattle.ep_domain.specs.Common.{sum_of_ranks};
    ghost use Rattle.ep_domain.specs.PairDomain.{pair_ops};
    ghost use Rattle.ep_domain.specs.Laws.PairLawful.{pair_laws, pair_height};

    ghost ops = { pair_ops };

    const HEIGHT: u32 = if A::HEIGHT <= u32::MAX - B::HEIGHT {
        A::HEIGHT + B::HEIGHT
    } else {
        u32::MAX
    };

    ghost HEIGHT = { sum_of_ranks A.HEIGHT B.HEIGHT };

    ghost laws = { pair_laws A.laws B.laws };

    ghost height_is = { pair_height A.height_is B.height_is };

    fn top(t: IntType) -> Self {
        product::narrowed(&A::top(t), &B::top(t)).unwrap()
    }

    fn single(v: i128) -> Self {
        product::narrowed(&A::single(v), &B::single(v)).unwrap()
    }

    fn holds(&self, v: i128) -> bool {
        product::both_hold(&self.left, &self.right, v)
    }

    fn range(&self) -> (i128, i128) {
        product::common_range(&self.left, &self.right)
    }

    fn within(&self, o: &Self) -> bool {
        self.left.within(&o.left) && self.right.within(&o.right)
    }

    fn join(&self, o: &Self) -> Self {
        product::joined(self, o)
    }

    fn widen(&self, o: &Self) -> Self {
        Pair {
            left: self.left.widen(&o.left),
            right: self.right.widen(&o.right),
        }
    }

    fn meet(&self, o: &Self) -> Option<Self> {
        product::narrowed_both(self.left.meet(&o.left), self.right.meet(&o.right))
    }

    fn op(op: BinOp, t: IntType, x: &Self, y: &Self) -> Outcome<Self> {
        product::outcome(op, t, x, y)
    }

    fn convert(&self, t: IntType) -> Self {
        product::converted(self, t)
    }

    fn filter(c: Cmp, x: &Self, y: &Self) -> Option<(Self, Self)> {
        product::filtered(c, x, y)
    }

    fn rank(&self) -> u32 {
        self.left.rank().saturating_add(self.right.rank())
    }

    fn edges(&self, lo: i128, hi: i128) -> Option<(i128, i128)> {
        product::edges(self, lo, hi)
    }

    fn cut(&self, lo: i128, hi: i128) -> Option<Self> {
        product::cut(self, lo, hi)
    }

    fn is_same(&self, o: &Self) -> bool {
        self.left.is_same(&o.left) && self.right.is_same(&o.right)
    }
}
