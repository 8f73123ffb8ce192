//! Forms.

ghost use Rattle.std.specs.Prelude.{◌≡◌, ℕ, ◌+◌, ◌-◌, ◌*◌, ◌/◌, ◌%◌, ◌^◌, ◌<◌, ◌≤◌, true, false, IsTrue, ◌↔◌, List};
ghost use Rattle.std.specs.Prelude.{[], ◌∷◌, ◌++◌, length, drop, IfSome, bit_and, bit_or};
ghost use Rattle.ep_int.specs.Types.{bits_of, is_signed, InRange, representation};
ghost use Rattle.ep_bitslice.specs.Bits.{Numbers, zeros, part_of, shifted_left, shifted_right, extended, masked};
ghost use Rattle.ep_bitslice.specs.Bits.{either_of, renamed, mentions, AgreeOn};
ghost use Rattle.ep_bitslice.specs.Segments.{bits, bits as the_bits, normal, IsAppended, segment_bits, width};
ghost use Rattle.ep_bitslice.specs.Segments.{segment_width, number, form_of, concat_of, or_of, IsSegment, TooMany};

use crate::{CellName, Segment};
use arrayvec::ArrayVec;
use ep_int::{IntType, wrap};
use std::marker::Model;

const MOST_BITS: u32 = 64;

const MOST_SEGMENTS: usize = 8;

/// What is known of the bits of a number: at most 8 segments of together at most 64 bits, the lowest first.
/// Neighbours that could be one segment are one.
#[derive(Debug, Drop, PartialEq, Eq)]
pub struct Form {
    segments: ArrayVec<Segment, MOST_SEGMENTS>,
}

impl Model for Form {
    ghost use Rattle.std.specs.Prelude.{List};
    ghost use Rattle.ep_bitslice.specs.declared.segment.Segment.{Segment};
    ghost use Rattle.ep_bitslice.specs.Segments.{IsForm};

    ghost Value = { List Segment };

    ghost view = { λ f. f.segments.items };

    ghost invariant = { λ f. IsForm f.segments.items };

    ghost inverse = { λ ss. record { segments = record { items = ss } } };
}

impl Form {
    ghost use Rattle.ep_bitslice.specs.declared.segment.Segment.{Segment};
    ghost use Rattle.ep_bitslice.specs.Segments.{IsForm};

    /// A cell's number.
    pub fn of_cell(c: CellName) -> Form
        ensures value { result ≡ Segment.Bits c 0 (bits_of c.t) ∷ [] }
        ensures number { (n : Numbers) → number n result ≡ representation c.t (n c) }
        ensures form { IsForm result }
    {
        Self::of_segment(Segment::Bits(c, 0, ep_int::bits(c.t) as u8))
    }

    /// A number of a type.
    pub fn constant(t: IntType, v: i128) -> Form
        requires { InRange t v }
        ensures value { result ≡ Segment.Fixed (representation t v) (bits_of t) ∷ [] }
        ensures number { (n : Numbers) → number n result ≡ representation t v }
        ensures form { IsForm result }
    {
        Self::of_segment(Segment::Fixed(representation(t, v), ep_int::bits(t) as u8))
    }

    /// The same form once more.
    pub fn copy(&self) -> Form
        ensures value { result ≡ self.now }
        ensures form { IsForm result }
    {
        let mut segments = ArrayVec::new();
        for s in self.segments() {
            segments.push(*s);
        }
        Form { segments }
    }

    /// Whether two forms say the same.
    pub fn is_same(&self, other: &Form) -> bool
        ensures { IsTrue result ↔ (self.now ≡ other.now) }
    {
        *self == *other
    }

    /// The number of bits.
    pub fn width(&self) -> u32
        ensures value { result ≡ width self.now }
        ensures within { result ≤ 64 }
        ensures form { IsForm self.now }
    {
        let mut width = 0;
        for s in self.segments() {
            width += s.width();
        }
        width
    }

    /// The segments, the lowest first.
    pub fn segments(&self) -> &[Segment]
        ensures value { result.now ≡ self.now }
        ensures form { IsForm self.now }
        ensures normal { normal (bits self.now) ≡ self.now }
        ensures canonical { (o : List Segment) → IsForm o → bits o ≡ bits self.now → o ≡ self.now }
    {
        self.segments.as_slice()
    }

    /// The bits of two forms, those of `low` first.
    pub fn concat(low: &Form, high: &Form) -> Option<Form>
        ensures value { result ≡ concat_of low.now high.now }
        ensures bits { IfSome result (λ f. bits f ≡ bits low.now ++ bits high.now) }
        ensures width { IfSome result (λ f. width f ≡ width low.now + width high.now) }
        ensures number { IfSome result (λ f. (n : Numbers)
            → number n f ≡ number n low.now + number n high.now * 2 ^ width low.now) }
        ensures form { IfSome result IsForm }
    {
        if low.width() + high.width() > MOST_BITS {
            return None;
        }
        let mut all = low.copy();
        if all.append(high, 0, high.width()) {
            Some(all)
        } else {
            None
        }
    }

    /// The bits moved up, with zeros below. Those that pass the width are lost.
    pub fn shl(&self, k: u32) -> Option<Form>
        requires { k < width self.now }
        ensures value { result ≡ form_of (shifted_left k (bits self.now)) }
        ensures bits { IfSome result (λ f. bits f ≡ shifted_left k (bits self.now)) }
        ensures width { IfSome result (λ f. width f ≡ width self.now) }
        ensures number { IfSome result (λ f. (n : Numbers)
            → number n f ≡ number n self.now * 2 ^ k % 2 ^ width self.now) }
        ensures form { IfSome result IsForm }
    {
        let width = self.width();
        let mut raised = Self::empty();
        if !raised.append_zeros(k) {
            return None;
        }
        if !raised.append(self, 0, width - k) {
            return None;
        }
        Some(raised)
    }

    /// The bits raised down, with zeros above.
    pub fn shr(&self, k: u32) -> Option<Form>
        requires { k < width self.now }
        ensures value { result ≡ form_of (shifted_right k (bits self.now)) }
        ensures bits { IfSome result (λ f. bits f ≡ shifted_right k (bits self.now)) }
        ensures width { IfSome result (λ f. width f ≡ width self.now) }
        ensures number { IfSome result (λ f. (n : Numbers) → number n f ≡ number n self.now / 2 ^ k) }
        ensures form { IfSome result IsForm }
    {
        let width = self.width();
        let mut lowered = Self::empty();
        if !lowered.append(self, k, width) {
            return None;
        }
        if !lowered.append_zeros(k) {
            return None;
        }
        Some(lowered)
    }

    /// The bits at the ones of `m`, and zeros elsewhere.
    pub fn mask(&self, m: u64) -> Option<Form>
        ensures value { result ≡ form_of (masked m (bits self.now)) }
        ensures bits { IfSome result (λ f. bits f ≡ masked m (bits self.now)) }
        ensures width { IfSome result (λ f. width f ≡ width self.now) }
        ensures number { IfSome result (λ f. (n : Numbers) → number n f ≡ bit_and (number n self.now) m) }
        ensures form { IfSome result IsForm }
    {
        let mut kept = Self::empty();
        let width = self.width();
        let mut at = 0;
        while at < width {
            let part = self.part_from(at);
            let piece = part.kept(m >> at);
            if !kept.try_push(piece) {
                return None;
            }
            at += piece.width();
        }
        Some(kept)
    }

    /// The bitwise or of two forms of one width, where at each bit one of both is a fixed zero.
    pub fn disjoint_or(a: &Form, b: &Form) -> Option<Form>
        ensures value { result ≡ or_of a.now b.now }
        ensures bits { IfSome result (λ f. bits f ≡ either_of (bits a.now) (bits b.now)) }
        ensures width { IfSome result (λ f. width f ≡ width a.now) }
        ensures number { IfSome result (λ f. (n : Numbers)
            → number n f ≡ bit_or (number n a.now) (number n b.now)) }
        ensures sum { IfSome result (λ f. (n : Numbers) → number n f ≡ number n a.now + number n b.now) }
        ensures form { IfSome result IsForm }
    {
        let width = a.width();
        if width != b.width() {
            return None;
        }
        let mut both = Self::empty();
        let mut at = 0;
        while at < width {
            let piece = a.part_from(at).either_front(&b.part_from(at))?;
            if !both.try_push(piece) {
                return None;
            }
            at += piece.width();
        }
        Some(both)
    }

    /// The bits with zeros above, so many together.
    pub fn extend(&self, bits: u32) -> Option<Form>
        requires low { width self.now ≤ bits }
        requires high { bits ≤ 64 }
        ensures value { result ≡ form_of (extended bits (the_bits self.now)) }
        ensures bits { IfSome result (λ f. the_bits f ≡ extended bits (the_bits self.now)) }
        ensures width { IfSome result (λ f. width f ≡ bits) }
        ensures number { IfSome result (λ f. (n : Numbers) → number n f ≡ number n self.now) }
        ensures form { IfSome result IsForm }
    {
        let mut all = self.copy();
        if all.append_zeros(bits - self.width()) {
            Some(all)
        } else {
            None
        }
    }

    /// The bits from one to before another.
    pub fn slice(&self, from: u32, to: u32) -> Form
        requires some { from < to }
        requires within { to ≤ width self.now }
        ensures value { result ≡ normal (part_of from to (bits self.now)) }
        ensures bits { bits result ≡ part_of from to (bits self.now) }
        ensures width { width result ≡ to - from }
        ensures number { (n : Numbers) → number n result ≡ number n self.now / 2 ^ from % 2 ^ (to - from) }
        ensures form { IsForm result }
    {
        let width = self.width();
        prove!(to <= width);
        let mut part = Self::empty();
        let fits = part.append(self, from, to);
        prove!(fits);
        part
    }

    /// The lowest bits.
    pub fn truncate(&self, bits: u32) -> Form
        requires some { 0 < bits }
        requires within { bits ≤ width self.now }
        ensures value { result ≡ normal (part_of 0 bits (the_bits self.now)) }
        ensures bits { the_bits result ≡ part_of 0 bits (the_bits self.now) }
        ensures width { width result ≡ bits }
        ensures number { (n : Numbers) → number n result ≡ number n self.now % 2 ^ bits }
        ensures form { IsForm result }
    {
        self.slice(0, bits)
    }

    /// The form with one cell in place of another.
    pub fn rename(&self, from: &CellName, to: &CellName) -> Form
        ensures value { result ≡ normal (renamed from.now to.now (bits self.now)) }
        ensures bits { bits result ≡ renamed from.now to.now (bits self.now) }
        ensures width { width result ≡ width self.now }
        ensures number { (n : Numbers) → n from.now ≡ n to.now → number n result ≡ number n self.now }
        ensures form { IsForm result }
    {
        let mut after = Self::empty();
        for s in self.segments() {
            let segment = s.renamed(from, to);
            let fits = after.try_push(segment);
            prove!(fits);
        }
        after
    }

    /// Whether some bit is one of the cell's.
    pub fn mentions(&self, c: &CellName) -> bool
        ensures value { result ≡ mentions c.now (bits self.now) }
        ensures mentioned { (n m : Numbers) → AgreeOn (bits self.now) n m → number n self.now ≡ number m self.now }
    {
        for s in self.segments() {
            if s.mentions(c) {
                return true;
            }
        }
        false
    }

    fn empty() -> Form
        ensures value { result ≡ [] }
        ensures form { IsForm result }
    {
        Form {
            segments: ArrayVec::new(),
        }
    }

    fn of_segment(s: Segment) -> Form
        requires segment { IsSegment s }
        requires short { segment_width s ≤ 64 }
        ensures value { result ≡ s ∷ [] }
        ensures form { IsForm result }
    {
        let mut segments = ArrayVec::new();
        segments.push(s);
        Form { segments }
    }

    // What is left of the segment that has a bit, from that bit on.
    fn part_from(&self, at: u32) -> Segment
        requires { at < width self.now }
        ensures segment { IsSegment result }
        ensures within { at + segment_width result ≤ width self.now }
        ensures bits { segment_bits result ++ drop (at + segment_width result) (bits self.now)
            ≡ drop at (bits self.now) }
    {
        let segments = self.segments();
        let mut index = 0;
        let mut rest = at;
        while rest >= segments[index].width() {
            rest -= segments[index].width();
            index += 1;
        }
        segments[index].after(rest)
    }

    // Appends bits of another form, if they fit.
    fn append(&mut self, f: &Form, from: u32, to: u32) -> bool
        requires form { IsForm self.old }
        requires order { from ≤ to }
        requires within { to ≤ width f.now }
        requires short { width self.old + (to - from) ≤ 64 }
        ensures appended { result ≡ true → IsAppended self.old (part_of from to (bits f.now)) self.new }
        ensures full { result ≡ false → TooMany (bits self.old ++ part_of from to (bits f.now)) }
    {
        let mut at = from;
        while at < to {
            let part = f.part_from(at);
            let count = part.width().min(to - at);
            if !self.try_push(part.first(count)) {
                return false;
            }
            at += count;
        }
        true
    }

    // Appends zeros, if they fit.
    fn append_zeros(&mut self, count: u32) -> bool
        requires form { IsForm self.old }
        requires short { width self.old + count ≤ 64 }
        ensures appended { result ≡ true → IsAppended self.old (zeros count) self.new }
        ensures full { result ≡ false → TooMany (bits self.old ++ zeros count) }
    {
        count == 0 || self.try_push(Segment::Fixed(0, count as u8))
    }

    // Appends a segment, if it fits.
    fn try_push(&mut self, s: Segment) -> bool
        requires segment { IsSegment s }
        requires short { width self.old + segment_width s ≤ 64 }
        ensures appended { result ≡ true → IsAppended self.old (segment_bits s) self.new }
        ensures full { result ≡ false → TooMany (bits self.old ++ segment_bits s) }
    {
        match self.segments.pop() {
            None => {
                self.segments.push(s);
                true
            }
            Some(last) => match last.joined(&s) {
                Some(whole) => {
                    self.segments.push(whole);
                    true
                }
                None => {
                    self.segments.push(last);
                    if self.segments.is_full() {
                        return false;
                    }
                    self.segments.push(s);
                    true
                }
            },
        }
    }
}

// The bits of a number, in two's complement.
fn representation(t: IntType, v: i128) -> u64
    ensures value { result ≡ representation t v }
    ensures within { result < 2 ^ bits_of t }
{
    wrap(unsigned(t), v) as u64
}

// The unsigned type of the same width.
fn unsigned(t: IntType) -> IntType
    ensures width { bits_of result ≡ bits_of t }
    ensures sign { is_signed result ≡ false }
{
    match t {
        IntType::I8 | IntType::U8 => IntType::U8,
        IntType::I16 | IntType::U16 => IntType::U16,
        IntType::I32 | IntType::U32 => IntType::U32,
        IntType::I64 | IntType::U64 => IntType::U64,
    }
}
