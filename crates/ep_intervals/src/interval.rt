//! Intervals of numbers.

ghost use Rattle.std.specs.Prelude.{◌≡◌, ◌⊎◌, refl};
ghost use Rattle.ep_int.specs.Arith.{int_eq};
ghost use Rattle.ep_range_laws.specs.Ranges.{IsRange};

use crate::{ends, results};
use ep_domain::{Num, Outcome, range_fault};
use ep_int::{BinOp, Cmp, IntType, greatest, least};
use std::marker::Model;

/// The numbers from one to another.
#[derive(Clone, Copy, Debug, PartialEq, Eq)]
pub struct Interval {
    pub(crate) lo: i128,
    pub(crate) hi: i128,
    ghost ends: { IsRange lo hi },
}

impl Model for Interval {
    ghost use Rattle.ep_interval_laws.specs.Interval.{Interval as Ends};
    ghost use Rattle.ep_interval_laws.proofs.Stored.{interval_code};

    ghost Value = { Ends };

    ghost coded = { interval_code };

    ghost view = { λ a. record { lo = a.lo; hi = a.hi; ends = a.ends } };

    ghost inverse = { λ a. record { lo = a.lo; hi = a.hi; ends = a.ends } };
}

impl Interval {
    ghost use Rattle.ep_interval_laws.specs.Interval.{between, overlap, apart_from};

    // The interval of two ends, where they are those of a range.
    pub(crate) fn between(lo: i128, hi: i128) -> Option<Self>
        ensures { result ≡ between lo hi }
    {
        if least(IntType::I64) <= lo && lo <= hi && hi <= greatest(IntType::U64) {
            Some(Interval { lo, hi })
        } else {
            None
        }
    }

    pub(crate) fn is_single(&self) -> bool
        ensures { result ≡ int_eq self.now.lo self.now.hi }
    {
        self.lo == self.hi
    }

    // The part from `lo` to `hi`.
    pub(crate) fn overlap(&self, lo: i128, hi: i128) -> Option<Self>
        ensures { result ≡ overlap self.now lo hi }
    {
        Self::between(self.lo.max(lo), self.hi.min(hi))
    }

    // The numbers that differ from that of a single, as far as they are an interval.
    fn apart_from(&self, o: &Self) -> Option<Self>
        ensures { result ≡ apart_from self.now o.now }
    {
        if o.lo == o.hi {
            Self::between(
                ends::low_apart(self.lo, o.lo),
                ends::high_apart(self.hi, o.lo),
            )
        } else {
            Some(*self)
        }
    }
}

impl Num for Interval {
    ghost use Rattle.ep_interval_laws.specs.Domain.{interval_ops};
    ghost use Rattle.ep_interval_laws.proofs.Lawful.{interval_laws};
    ghost use Rattle.ep_interval_laws.specs.Interval.{HasNumber, join_of, meet_of, conversion_of};
    ghost use Rattle.ep_interval_laws.specs.Results.{outcome_of};
    ghost use Rattle.ep_interval_laws.specs.Least.{IsLeast, IsLeastOf, IsResult, IsConverted, HasLeast, IsCommon};

    ghost ops = { interval_ops };

    const HEIGHT: u32 = 14;

    ghost HEIGHT = { 14 };

    ghost laws = { interval_laws };

    ghost height_is = { refl };

    fn top(t: IntType) -> Self {
        Interval {
            lo: least(t),
            hi: greatest(t),
        }
    }

    fn single(v: i128) -> Self {
        Interval { lo: v, hi: v }
    }

    fn holds(&self, v: i128) -> bool {
        self.lo <= v && v <= self.hi
    }

    fn range(&self) -> (i128, i128) {
        (self.lo, self.hi)
    }

    fn within(&self, o: &Self) -> bool {
        o.lo <= self.lo && self.hi <= o.hi
    }

    fn join(&self, o: &Self) -> Self
        ensures value { result ≡ join_of self.now o.now }
        ensures least { IsLeast (λ v. HasNumber self.now v ⊎ HasNumber o.now v) result }
    {
        Interval {
            lo: self.lo.min(o.lo),
            hi: self.hi.max(o.hi),
        }
    }

    fn widen(&self, o: &Self) -> Self {
        Interval {
            lo: ends::lowered(self.lo, o.lo),
            hi: ends::raised(self.hi, o.hi),
        }
    }

    fn meet(&self, o: &Self) -> Option<Self>
        ensures value { result ≡ meet_of self.now o.now }
        ensures common { IsCommon self.now o.now result }
    {
        self.overlap(o.lo, o.hi)
    }

    fn op(op: BinOp, t: IntType, x: &Self, y: &Self) -> Outcome<Self>
        ensures value { result ≡ outcome_of op t x.now y.now }
        ensures least { HasLeast op t x.now y.now → IsLeastOf (IsResult op t x.now y.now) result.value }
    {
        let shown = range_fault(op, t, x.range(), y.range());
        Outcome {
            value: results::value(op, t, x, y),
            fault: shown.is_some(),
            shown: shown.unwrap_or((0, 0)),
        }
    }

    fn convert(&self, t: IntType) -> Self
        ensures value { result ≡ conversion_of self.now t }
        ensures least { IsLeast (IsConverted t self.now) result }
    {
        let (lo, hi) = ends::wrapped(t, self.lo, self.hi);
        Interval { lo, hi }
    }

    fn filter(c: Cmp, x: &Self, y: &Self) -> Option<(Self, Self)> {
        match c {
            Cmp::Eq => x.meet(y).zip(y.meet(x)),
            Cmp::Ne => x.apart_from(y).zip(y.apart_from(x)),
            Cmp::Lt => x.overlap(x.lo, y.hi - 1).zip(y.overlap(x.lo + 1, y.hi)),
            Cmp::Le => x.overlap(x.lo, y.hi).zip(y.overlap(x.lo, y.hi)),
            Cmp::Gt => x.overlap(y.lo + 1, x.hi).zip(y.overlap(y.lo, x.hi - 1)),
            Cmp::Ge => x.overlap(y.lo, x.hi).zip(y.overlap(y.lo, x.hi)),
        }
    }

    fn rank(&self) -> u32 {
        ends::low_rank(self.lo) + ends::high_rank(self.hi)
    }

    fn edges(&self, lo: i128, hi: i128) -> Option<(i128, i128)> {
        Some(self.overlap(lo, hi)?.range())
    }

    fn cut(&self, lo: i128, hi: i128) -> Option<Self> {
        self.overlap(lo, hi)
    }

    fn is_same(&self, o: &Self) -> bool {
        self.lo == o.lo && self.hi == o.hi
    }
}
