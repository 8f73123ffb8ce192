//! Congruence classes of numbers.

ghost use Rattle.std.specs.Prelude.{◌≡◌, IsTrue};
ghost use Rattle.ep_congruence_laws.specs.Classes.{is_class};

use crate::gcd::{gcd, is_multiple};
use crate::numbers::{is_class, is_number, residue, turn};
use crate::operators;
use ep_domain::{Num, Outcome};
use ep_int::{BinOp, Cmp, IntType, greatest, least, wrap};
use std::marker::Model;

/// The numbers of the integer types that have one remainder at a modulus. Of the modulus 0 it is the remainder alone,
/// of the modulus 1 every number.
#[derive(Clone, Copy, Debug, PartialEq, Eq)]
pub struct Congruence {
    pub(crate) remainder: i128,
    pub(crate) modulus: u128,
    ghost valid: { IsTrue (is_class remainder modulus) },
}

impl Model for Congruence {
    ghost use Rattle.ep_congruence_domain.specs.Congruence.{Congruence as Valid};
    ghost use Rattle.ep_congruence_domain.proofs.Stored.{congruence_code};

    ghost Value = { Valid };

    ghost coded = { congruence_code };

    ghost view = { λ c. record { remainder = c.remainder; modulus = c.modulus; valid = c.valid } };

    ghost inverse = { λ c. record { remainder = c.remainder; modulus = c.modulus; valid = c.valid } };
}

impl Congruence {
    ghost use Rattle.std.specs.Prelude.{IsSome, IfSome, ◌↔◌, ◌≤◌, ◌<◌, ◌^◌, pos, ◌≤ℤ◌};
    ghost use Rattle.std.specs.Option.{option_map};
    ghost use Rattle.ep_int.specs.Arith.{IsOfSomeType};
    ghost use Rattle.ep_int.specs.declared.types.IntType.TheVariants.{I64, U64};
    ghost use Rattle.ep_int.specs.Types.{bits_of, least_of, greatest_of, residue};
    ghost use Rattle.ep_congruence_laws.specs.Classes as classes;
    ghost use Rattle.ep_congruence_laws.specs.Classes.{class, is_one, distance, greatest_modulus};
    ghost use Rattle.ep_congruence_domain.specs.Congruence.{AreOfClass, IsValid, class_of, formed};

    /// The class of a remainder and a modulus. `None` where the modulus is negative or above 2^65 - 1, where it isn't 0
    /// and the remainder isn't from 0 to the modulus less one, and where no number from -2^63 to 2^64 - 1 is in it.
    pub fn of(remainder: i128, modulus: i128) -> Option<Self>
        ensures some { IsSome result ↔ AreOfClass remainder modulus }
        ensures value { IfSome result (λ c. (c.remainder ≡ remainder) × (pos c.modulus ≡ modulus)) }
    {
        if modulus < 0 {
            None
        } else {
            Self::formed(remainder, modulus.unsigned_abs())
        }
    }

    // The congruence of a remainder and a modulus, where they are those of one.
    pub(crate) fn formed(remainder: i128, modulus: u128) -> Option<Self>
        ensures { result ≡ formed (class remainder modulus) }
    {
        if is_class(remainder, modulus) {
            Some(Congruence { remainder, modulus })
        } else {
            None
        }
    }

    // The same class with a remainder below the modulus.
    pub(crate) fn reduced(remainder: i128, modulus: u128) -> Self
        requires { IsValid (classes.reduced remainder modulus) }
        ensures { class_of result ≡ classes.reduced remainder modulus }
    {
        if modulus == 0 {
            Congruence {
                remainder,
                modulus: 0,
            }
        } else {
            Congruence {
                remainder: residue(modulus, remainder) as i128,
                modulus,
            }
        }
    }

    /// The remainder, from 0 to the modulus less one where that isn't 0.
    pub fn remainder(&self) -> i128
        ensures value { result ≡ self.now.remainder }
        ensures low { least_of I64 ≤ℤ result }
        ensures high { result ≤ℤ pos greatest_modulus }
    {
        self.remainder
    }

    /// The modulus, from 0 to 2^65 - 1.
    pub fn modulus(&self) -> i128
        ensures value { result ≡ pos self.now.modulus }
        ensures high { result ≤ℤ pos greatest_modulus }
    {
        self.modulus as i128
    }

    pub(crate) fn is_one(&self) -> bool
        ensures { result ≡ is_one (class_of self.now) }
    {
        self.modulus == 0
    }

    pub(crate) fn distance(&self, o: &Self) -> i128
        ensures { result ≡ distance (class_of self.now) (class_of o.now) }
    {
        self.remainder() - o.remainder()
    }

    // What is left of a number at the modulus.
    fn left(&self, z: i128) -> i128
        requires { 0 < self.now.modulus }
        ensures value { result ≡ pos (residue self.now.modulus z) }
        ensures low { pos 0 ≤ℤ result }
        ensures high { result ≤ℤ pos greatest_modulus }
    {
        residue(self.modulus, z) as i128
    }

    // The first member from a number on.
    fn first_from(&self, lo: i128) -> i128
        requires more { 0 < self.now.modulus }
        requires low { least_of I64 ≤ℤ lo }
        requires high { lo ≤ℤ greatest_of U64 }
        ensures { result ≡ classes.first_from (class_of self.now) lo }
    {
        lo + self.left(self.remainder() - lo)
    }

    // The last member up to a number.
    fn last_to(&self, hi: i128) -> i128
        requires more { 0 < self.now.modulus }
        requires low { least_of I64 ≤ℤ hi }
        requires high { hi ≤ℤ greatest_of U64 }
        ensures { result ≡ classes.last_to (class_of self.now) hi }
    {
        hi - self.left(hi - self.remainder())
    }

    // The least and the greatest member between two numbers.
    fn edges_of_more(&self, lo: i128, hi: i128) -> Option<(i128, i128)>
        requires more { 0 < self.now.modulus }
        requires low { least_of I64 ≤ℤ lo × lo ≤ℤ greatest_of U64 }
        requires high { least_of I64 ≤ℤ hi × hi ≤ℤ greatest_of U64 }
        ensures { result ≡ classes.edges_of_more (class_of self.now) lo hi }
    {
        let first = self.first_from(lo);
        if first <= hi {
            Some((first, self.last_to(hi)))
        } else {
            None
        }
    }

    // The same of any class.
    fn edges_from(&self, lo: i128, hi: i128) -> Option<(i128, i128)>
        requires low { least_of I64 ≤ℤ lo }
        requires high { hi ≤ℤ greatest_of U64 }
        ensures { result ≡ classes.edges_from (class_of self.now) lo hi }
    {
        if self.is_one() {
            return (lo <= self.remainder && self.remainder <= hi).then_some((
                self.remainder,
                self.remainder,
            ));
        }
        if hi < lo {
            return None;
        }
        self.edges_of_more(lo, hi)
    }

    /// The least and the greatest number held from `lo` to `hi`.
    pub(crate) fn edges_of(&self, lo: i128, hi: i128) -> Option<(i128, i128)>
        ensures value { result ≡ classes.edges_of (class_of self.now) lo hi }
        ensures numbers { IfSome result (λ e. IsOfSomeType e.0 × IsOfSomeType e.1) }
    {
        self.edges_from(lo.max(least(IntType::I64)), hi.min(greatest(IntType::U64)))
    }

    /// The numbers held from `lo` to `hi`.
    pub(crate) fn cut_of(&self, lo: i128, hi: i128) -> Option<Self>
        ensures { option_map class_of result ≡ classes.cut_of (class_of self.now) lo hi }
    {
        let (first, last) = self.edges_of(lo, hi)?;
        if first == last {
            Some(Self::one(first))
        } else {
            Some(*self)
        }
    }

    /// Whether the other surely holds all that this one does: inclusion of the classes.
    pub(crate) fn is_inside(&self, o: &Self) -> bool
        ensures { result ≡ classes.is_within (class_of self.now) (class_of o.now) }
    {
        is_multiple(o.modulus, self.modulus()) && is_multiple(o.modulus, self.distance(o))
    }

    pub(crate) fn joined(&self, o: &Self) -> Self
        ensures { class_of result ≡ classes.join_of (class_of self.now) (class_of o.now) }
    {
        let modulus = gcd(
            gcd(self.modulus, o.modulus),
            self.distance(o).unsigned_abs(),
        );
        Self::reduced(self.remainder(), modulus)
    }

    // The operand of the greater modulus, a single number before all others.
    fn meeting(&self, o: &Self) -> Self
        ensures { class_of result ≡ classes.meeting (class_of self.now) (class_of o.now) }
    {
        if self.is_one() {
            return *self;
        }
        if o.is_one() {
            return *o;
        }
        if o.modulus <= self.modulus { *self } else { *o }
    }

    pub(crate) fn met(&self, o: &Self) -> Option<Self>
        ensures { option_map class_of result ≡ classes.meet_of (class_of self.now) (class_of o.now) }
    {
        if is_multiple(gcd(self.modulus, o.modulus), self.distance(o)) {
            Some(self.meeting(o))
        } else {
            None
        }
    }

    pub(crate) fn range_of(&self) -> (i128, i128)
        ensures { result ≡ classes.range_of (class_of self.now) }
    {
        if self.is_one() {
            (self.remainder, self.remainder)
        } else {
            (least(IntType::I64), greatest(IntType::U64))
        }
    }

    pub(crate) fn rank_of(&self) -> u32
        ensures { result ≡ classes.rank_of (class_of self.now) }
    {
        if self.is_one() {
            65
        } else {
            127 - self.modulus.leading_zeros()
        }
    }

    pub(crate) fn one(v: i128) -> Self
        requires { IsOfSomeType v }
        ensures { class_of result ≡ classes.one v }
    {
        Congruence {
            remainder: v,
            modulus: 0,
        }
    }

    pub(crate) fn converted(&self, t: IntType) -> Self
        ensures { class_of result ≡ classes.conversion_of (class_of self.now) t }
    {
        if self.is_one() {
            Self::one(wrap(t, self.remainder()))
        } else {
            Self::reduced(self.remainder(), gcd(self.modulus, turn(t)))
        }
    }
}

impl Num for Congruence {
    ghost use Rattle.std.specs.Prelude.{refl};
    ghost use Rattle.ep_congruence_domain.specs.Domain.{congruence_ops};
    ghost use Rattle.ep_congruence_domain.proofs.Lawful.{congruence_laws};

    ghost ops = { congruence_ops };

    const HEIGHT: u32 = 65;

    ghost HEIGHT = { 65 };

    ghost laws = { congruence_laws };

    ghost height_is = { refl };

    fn top(t: IntType) -> Self {
        let _ = t;
        Congruence {
            remainder: 0,
            modulus: 1,
        }
    }

    fn single(v: i128) -> Self {
        Self::one(v)
    }

    fn holds(&self, v: i128) -> bool {
        is_number(v) && is_multiple(self.modulus, v - self.remainder())
    }

    fn range(&self) -> (i128, i128) {
        self.range_of()
    }

    fn within(&self, o: &Self) -> bool {
        self.is_inside(o)
    }

    fn join(&self, o: &Self) -> Self {
        self.joined(o)
    }

    fn widen(&self, o: &Self) -> Self {
        self.joined(o)
    }

    fn meet(&self, o: &Self) -> Option<Self> {
        self.met(o)
    }

    fn op(op: BinOp, t: IntType, x: &Self, y: &Self) -> Outcome<Self> {
        let shown = operators::fault(op, t, x, y);
        Outcome {
            value: operators::value(op, t, x, y),
            fault: shown.is_some(),
            shown: shown.unwrap_or((0, 0)),
        }
    }

    fn convert(&self, t: IntType) -> Self {
        self.converted(t)
    }

    fn filter(c: Cmp, x: &Self, y: &Self) -> Option<(Self, Self)> {
        if c == Cmp::Eq {
            let both = x.met(y)?;
            return Some((both, both));
        }
        if operators::are_apart(c, x, y) {
            None
        } else {
            Some((*x, *y))
        }
    }

    fn rank(&self) -> u32 {
        self.rank_of()
    }

    fn edges(&self, lo: i128, hi: i128) -> Option<(i128, i128)> {
        self.edges_of(lo, hi)
    }

    fn cut(&self, lo: i128, hi: i128) -> Option<Self> {
        self.cut_of(lo, hi)
    }

    fn is_same(&self, o: &Self) -> bool {
        self.remainder == o.remainder && self.modulus == o.modulus
    }
}
