//! Known bits of numbers.

ghost use Rattle.std.specs.Prelude.{◌≡◌, IsTrue};
ghost use Rattle.ep_bit_laws.specs.Patterns.{is_pattern};

use crate::masks::{self, LIMIT};
use crate::{edges, operators, results};
use ep_domain::{Num, Outcome, range_fault};
use ep_int::{BinOp, Cmp, IntType, greatest, is_signed, least, wrap};
use std::marker::Model;

/// The numbers from -2^63 to 2^64 - 1 of which some bits are known, of bits 0 to 64 of two's complement. Every bit
/// that isn't known takes both values among them.
#[derive(Clone, Copy, Debug, PartialEq, Eq)]
pub struct KnownBits {
    pub(crate) zeros: u128,
    pub(crate) ones: u128,
    ghost valid: { IsTrue (is_pattern zeros ones) },
}

impl Model for KnownBits {
    ghost use Rattle.ep_bit_domain.specs.KnownBits.{KnownBits as Valid};
    ghost use Rattle.ep_bit_domain.proofs.Stored.{bits_code};

    ghost Value = { Valid };

    ghost coded = { bits_code };

    ghost view = { λ c. record { zeros = c.zeros; ones = c.ones; valid = c.valid } };

    ghost inverse = { λ c. record { zeros = c.zeros; ones = c.ones; valid = c.valid } };
}

impl KnownBits {
    ghost use Rattle.std.specs.Prelude.{◌<◌, ◌^◌, refl};
    ghost use Rattle.ep_int.specs.Arith.{IsOfSomeType};
    ghost use Rattle.ep_bit_laws.specs.Patterns.{pattern, exactly, type_pattern};
    ghost use Rattle.ep_bit_domain.specs.KnownBits.{pattern_of, made_if, formed, edges_of, range_of, cut_of};
    ghost use Rattle.ep_bit_domain.specs.KnownBits.{single_of, top_of, is_one, number_of, conversion_of};
    ghost use Rattle.ep_bit_domain.specs.KnownBits.{conversion_of_more, meet_of, filter_of};
    ghost use Rattle.ep_bit_domain.specs.Exact.{bit_in};

    /// Whether bit `k` is 1, or `None` where it takes both values.
    pub fn bit(&self, k: u32) -> Option<bool>
        requires { k < 65 }
        ensures { result ≡ bit_in self.now k }
    {
        if masks::bit(self.ones, k) {
            return Some(true);
        }
        if masks::bit(self.zeros, k) {
            return Some(false);
        }
        None
    }

    // The value of two masks, where they are those of one.
    fn made_if(zeros: u128, ones: u128) -> Option<Self>
        ensures { result ≡ made_if (pattern zeros ones) (is_pattern zeros ones) refl }
    {
        if masks::is_pattern(zeros, ones) {
            Some(KnownBits { zeros, ones })
        } else {
            None
        }
    }

    // What is known of the numbers that have these bits.
    pub(crate) fn formed(zeros: u128, ones: u128) -> Option<Self>
        ensures { result ≡ formed (pattern zeros ones) }
    {
        Self::made_if(masks::closed_zeros(zeros), masks::closed_ones(ones))
    }

    pub(crate) fn of_type(t: IntType) -> Self
        ensures { result ≡ top_of t }
    {
        KnownBits {
            zeros: masks::zeros_of_type(t),
            ones: 0,
        }
    }

    pub(crate) fn exactly(v: i128) -> Self
        requires { IsOfSomeType v }
        ensures { result ≡ single_of v }
    {
        let ones = masks::low_bits(v);
        KnownBits {
            zeros: LIMIT - 1 - ones,
            ones,
        }
    }

    fn edges_of(&self, lo: i128, hi: i128) -> Option<(i128, i128)>
        ensures { result ≡ edges_of self.now lo hi }
    {
        let low = lo.max(least(IntType::I64));
        let high = hi.min(greatest(IntType::U64));
        if low <= high {
            edges::edges(self.zeros, self.ones, low, high)
        } else {
            None
        }
    }

    pub(crate) fn range_of(&self) -> (i128, i128)
        ensures { result ≡ range_of self.now }
    {
        self.edges_of(least(IntType::I64), greatest(IntType::U64))
            .unwrap_or((0, 0))
    }

    fn cut_of(&self, lo: i128, hi: i128) -> Option<Self>
        ensures { result ≡ cut_of self.now lo hi }
    {
        let (first, last) = self.edges_of(lo, hi)?;
        if first == last {
            Some(Self::exactly(first))
        } else {
            Some(*self)
        }
    }

    // The knowledge of both.
    fn met(&self, o: &Self) -> Option<Self>
        ensures { result ≡ meet_of self.now o.now }
    {
        Self::formed(self.zeros | o.zeros, self.ones | o.ones)
    }

    fn filtered(c: Cmp, x: &Self, y: &Self) -> Option<(Self, Self)>
        ensures { result ≡ filter_of c x.now y.now }
    {
        if c == Cmp::Eq {
            let both = x.met(y)?;
            return Some((both, both));
        }
        if operators::may_compare(c, x.range_of(), y.range_of()) {
            Some((*x, *y))
        } else {
            None
        }
    }

    pub(crate) fn is_one(&self) -> bool
        ensures { result ≡ is_one self.now }
    {
        let (first, last) = self.range_of();
        first == last
    }

    // The least number, which is the one number of a value that is one number.
    pub(crate) fn number_of(&self) -> i128
        ensures { result ≡ number_of self.now }
    {
        self.range_of().0
    }

    fn converted(&self, t: IntType) -> Self
        ensures { result ≡ conversion_of self.now t }
    {
        if self.is_one() {
            Self::exactly(wrap(t, self.number_of()))
        } else {
            self.converted_more(t)
        }
    }

    // Of more than one number.
    fn converted_more(&self, t: IntType) -> Self
        ensures { result ≡ conversion_of_more self.now t }
    {
        if is_signed(t) {
            Self::of_type(t)
        } else {
            results::low_part(t, self.zeros, self.ones).unwrap_or(Self::of_type(t))
        }
    }
}

impl Num for KnownBits {
    ghost use Rattle.std.specs.Prelude.{◌≢◌, ◌↔◌, IsSome, refl, false};
    ghost use Rattle.ep_int.specs.declared.types.IntType.TheVariants.{I64, U64};
    ghost use Rattle.ep_int.specs.declared.types.Cmp.TheVariants.{Eq};
    ghost use Rattle.ep_int.specs.Types.{is_signed, least_of, greatest_of};
    ghost use Rattle.ep_bit_domain.specs.Domain.{bit_ops};
    ghost use Rattle.ep_bit_domain.specs.KnownBits.{range_of, meet_of, outcome_of, conversion_of, filter_of, edges_of};
    ghost use Rattle.ep_bit_domain.specs.Exact.{KnowsExactly, IsExactly, IsResult, IsConverted, IsExactOp};
    ghost use Rattle.ep_bit_domain.specs.Exact.{AreEdges, IsEdges, IsCommon, SomeCompare};
    ghost use Rattle.ep_bit_domain.proofs.Lawful.{bit_laws};

    ghost ops = { bit_ops };

    const HEIGHT: u32 = 65;

    ghost HEIGHT = { 65 };

    ghost laws = { bit_laws };

    ghost height_is = { refl };

    fn top(t: IntType) -> Self {
        Self::of_type(t)
    }

    fn single(v: i128) -> Self {
        Self::exactly(v)
    }

    fn holds(&self, v: i128) -> bool {
        masks::is_number(v) && masks::matches(self.zeros, self.ones, masks::low_bits(v))
    }

    fn range(&self) -> (i128, i128)
        ensures value { result ≡ range_of self.now }
        ensures ends { AreEdges self.now (least_of I64) (greatest_of U64) result }
    {
        self.range_of()
    }

    fn within(&self, o: &Self) -> bool {
        self.zeros & o.zeros == o.zeros && self.ones & o.ones == o.ones
    }

    fn join(&self, o: &Self) -> Self {
        KnownBits {
            zeros: self.zeros & o.zeros,
            ones: self.ones & o.ones,
        }
    }

    fn widen(&self, o: &Self) -> Self {
        self.join(o)
    }

    fn meet(&self, o: &Self) -> Option<Self>
        ensures value { result ≡ meet_of self.now o.now }
        ensures common { IsCommon self.now o.now result }
    {
        self.met(o)
    }

    fn op(op: BinOp, t: IntType, x: &Self, y: &Self) -> Outcome<Self>
        ensures value { result ≡ outcome_of op t x.now y.now }
        ensures exact { IsExactOp op t y.now → IsExactly (IsResult op t x.now y.now) result.value }
    {
        let shown = range_fault(op, t, x.range_of(), y.range_of());
        Outcome {
            value: operators::value(op, t, x, y),
            fault: shown.is_some(),
            shown: shown.unwrap_or((0, 0)),
        }
    }

    fn convert(&self, t: IntType) -> Self
        ensures value { result ≡ conversion_of self.now t }
        ensures exact { is_signed t ≡ false → KnowsExactly (IsConverted t self.now) result }
    {
        self.converted(t)
    }

    fn filter(c: Cmp, x: &Self, y: &Self) -> Option<(Self, Self)>
        ensures value { result ≡ filter_of c x.now y.now }
        ensures some { c ≢ Eq → (IsSome result ↔ SomeCompare c (range_of x.now) (range_of y.now)) }
    {
        Self::filtered(c, x, y)
    }

    fn rank(&self) -> u32 {
        (self.zeros | self.ones).count_ones()
    }

    fn edges(&self, lo: i128, hi: i128) -> Option<(i128, i128)>
        ensures value { result ≡ edges_of self.now lo hi }
        ensures members { IsEdges self.now lo hi result }
    {
        self.edges_of(lo, hi)
    }

    fn cut(&self, lo: i128, hi: i128) -> Option<Self> {
        self.cut_of(lo, hi)
    }

    fn is_same(&self, o: &Self) -> bool {
        self.zeros == o.zeros && self.ones == o.ones
    }
}
