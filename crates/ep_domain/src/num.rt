//! What an abstract number is.

ghost use Rattle.std.specs.Prelude.{◌≡◌, ◌↔◌, IsTrue, ℕ};
ghost use Rattle.ep_int.specs.Arith.{IsOfSomeType};
ghost use Rattle.ep_domain.specs.Domain.{Ops, Lawful};

use crate::outcome::Outcome;
use ep_int::{BinOp, Cmp, IntType};

/// An abstract number, which holds some of the numbers from -2^63 to 2^64 - 1.
pub trait Num: Copy {
    /// The meaning and the operations.
    ghost ops: { Ops Self };

    /// The greatest rank. A domain of which it is 4294967295 promises nothing of ranks.
    const HEIGHT: u32;

    ghost HEIGHT: { ℕ };

    /// The range of a type.
    fn top(t: IntType) -> Self
        ensures { result ≡ ops.top t };

    /// One number.
    fn single(v: i128) -> Self
        requires { IsOfSomeType v }
        ensures { result ≡ ops.single v };

    /// Whether it holds a number.
    fn holds(&self, v: i128) -> bool
        ensures { result ≡ ops.holds self.now v };

    /// A range that encloses the numbers that it holds. Where both ends are equal it is called a single.
    fn range(&self) -> (i128, i128)
        ensures { result ≡ ops.range self.now };

    /// Whether the other surely holds all that this one does.
    fn within(&self, o: &Self) -> bool
        ensures { result ≡ ops.within self.now o.now };

    /// The numbers of both.
    fn join(&self, o: &Self) -> Self
        ensures { result ≡ ops.join self.now o.now };

    /// The numbers of both and more, so that a value that is widened again and again soon stays.
    fn widen(&self, o: &Self) -> Self
        ensures { result ≡ ops.widen self.now o.now };

    /// The numbers that both hold, or `None` where there is none.
    fn meet(&self, o: &Self) -> Option<Self>
        ensures { result ≡ ops.meet self.now o.now };

    /// The results of an operator. Numbers out of the range of the type are left out, but of the amounts of shifts.
    fn op(op: BinOp, t: IntType, x: &Self, y: &Self) -> Outcome<Self>
        ensures { result ≡ ops.op op t x.now y.now };

    /// Each number after conversion to a type.
    fn convert(&self, t: IntType) -> Self
        ensures { result ≡ ops.convert self.now t };

    /// The numbers of pairs that compare so, or `None` where there is no such pair.
    fn filter(c: Cmp, x: &Self, y: &Self) -> Option<(Self, Self)>
        ensures { result ≡ ops.filter c x.now y.now };

    /// How often widening can still change it, at most.
    fn rank(&self) -> u32
        ensures { result ≡ ops.rank self.now };

    /// A range from `lo` to `hi` that encloses each number held there, or `None` where there is none.
    fn edges(&self, lo: i128, hi: i128) -> Option<(i128, i128)>
        ensures { result ≡ ops.edges self.now lo hi };

    /// The numbers held from `lo` to `hi`, or `None` where there is none.
    fn cut(&self, lo: i128, hi: i128) -> Option<Self>
        ensures { result ≡ ops.cut self.now lo hi };

    /// Whether both are one value.
    fn is_same(&self, o: &Self) -> bool
        ensures { IsTrue result ↔ (self.now ≡ o.now) };

    /// They keep the laws.
    ghost laws: { Lawful ops };

    /// The constant is their height.
    ghost height_is: { ops.height ≡ HEIGHT };
}
