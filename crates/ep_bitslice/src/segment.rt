//! Segments, and what becomes of their bits.

ghost use Rattle.std.specs.Prelude.{◌≡◌, ◌+◌, ◌-◌, ◌<◌, ◌≤◌, true, false, ◌∷◌, ◌++◌, List, take, drop, Some, None};
ghost use Rattle.std.specs.Prelude.{◌==◌, if◌then◌else◌, bit_and, bit_or, IfSome, IfNone};
ghost use Rattle.ep_bitslice.specs.Bits.{Bit, masked, are_disjoint, either_of, renamed_cell, renamed, mentions};
ghost use Rattle.ep_bitslice.specs.Bits.{is_same_cell};
ghost use Rattle.ep_bitslice.specs.Segments.{segment_bits, segment_width, joined, IsSegment, IsEitherFront};

use crate::CellName;

/// Neighbouring bits of a form.
#[derive(Clone, Copy, Debug, PartialEq, Eq)]
pub enum Segment {
    /// The bits of a cell's number from one to before another, counted from the lowest.
    Bits(CellName, u8, u8),
    /// The bits of a number, and how many they are.
    Fixed(u64, u8),
}

impl Default for Segment {
    fn default() -> Self {
        Segment::Fixed(0, 1)
    }
}

impl Segment {
    /// How many bits it has.
    pub(crate) fn width(&self) -> u32
        requires { IsSegment self.now }
        ensures { result ≡ segment_width self.now }
    {
        match *self {
            Segment::Bits(_, from, to) => u32::from(to - from),
            Segment::Fixed(_, width) => u32::from(width),
        }
    }

    /// The lowest bits.
    pub(crate) fn first(&self, count: u32) -> Segment
        requires segment { IsSegment self.now }
        requires some { 0 < count }
        requires within { count ≤ segment_width self.now }
        ensures segment { IsSegment result }
        ensures width { segment_width result ≡ count }
        ensures bits { segment_bits result ≡ take count (segment_bits self.now) }
    {
        match *self {
            Segment::Bits(cell, from, _) => Segment::Bits(cell, from, from + count as u8),
            Segment::Fixed(value, _) => {
                Segment::Fixed(value & (u64::MAX >> (64 - count)), count as u8)
            }
        }
    }

    /// What is left without the lowest bits.
    pub(crate) fn after(&self, count: u32) -> Segment
        requires segment { IsSegment self.now }
        requires within { count < segment_width self.now }
        ensures segment { IsSegment result }
        ensures width { segment_width result + count ≡ segment_width self.now }
        ensures bits { segment_bits result ≡ drop count (segment_bits self.now) }
    {
        match *self {
            Segment::Bits(cell, from, to) => Segment::Bits(cell, from + count as u8, to),
            Segment::Fixed(value, width) => Segment::Fixed(value >> count, width - count as u8),
        }
    }

    /// This and the bits above it as one segment, if they can be one.
    pub(crate) fn joined(&self, next: &Segment) -> Option<Segment>
        requires segment { IsSegment self.now }
        requires next { IsSegment next.now }
        requires short { segment_width self.now + segment_width next.now ≤ 64 }
        ensures { result ≡ joined self.now next.now }
    {
        match *self {
            Segment::Fixed(low, width) => match *next {
                Segment::Fixed(high, more) => {
                    Some(Segment::Fixed(low + (high << width), width + more))
                }
                Segment::Bits(..) => None,
            },
            Segment::Bits(cell, from, middle) => match *next {
                Segment::Bits(other, start, to) => {
                    if is_same_cell(&cell, &other) && middle == start {
                        Some(Segment::Bits(cell, from, to))
                    } else {
                        None
                    }
                }
                Segment::Fixed(..) => None,
            },
        }
    }

    /// As many of its lowest bits as are kept together, or cleared together, by the ones of `m`.
    pub(crate) fn kept(&self, m: u64) -> Segment
        requires { IsSegment self.now }
        ensures segment { IsSegment result }
        ensures within { segment_width result ≤ segment_width self.now }
        ensures bits { segment_bits result ≡ masked m (take (segment_width result) (segment_bits self.now)) }
    {
        if m & 1 == 1 {
            self.first(self.width().min(m.trailing_ones()))
        } else {
            Segment::Fixed(0, self.width().min(m.trailing_zeros()) as u8)
        }
    }

    /// Of the lowest bits that both have, at each the one that isn't a zero, if the other one is.
    pub(crate) fn either_front(&self, other: &Segment) -> Option<Segment>
        requires segment { IsSegment self.now }
        requires other { IsSegment other.now }
        ensures none { IfNone result ((xs ys : List Bit)
            → are_disjoint (segment_bits self.now ++ xs) (segment_bits other.now ++ ys) ≡ false) }
        ensures piece { IfSome result (IsEitherFront self.now other.now) }
    {
        let count = self.width().min(other.width());
        self.first(count).either(&other.first(count))
    }

    // The same of two segments of one width.
    fn either(&self, other: &Segment) -> Option<Segment>
        requires segment { IsSegment self.now }
        requires other { IsSegment other.now }
        requires width { segment_width self.now ≡ segment_width other.now }
        ensures none { IfNone result (are_disjoint (segment_bits self.now) (segment_bits other.now) ≡ false) }
        ensures disjoint { IfSome result
            (λ _. are_disjoint (segment_bits self.now) (segment_bits other.now) ≡ true) }
        ensures segment { IfSome result IsSegment }
        ensures width { IfSome result (λ s. segment_width s ≡ segment_width self.now) }
        ensures bits { IfSome result
            (λ s. segment_bits s ≡ either_of (segment_bits self.now) (segment_bits other.now)) }
    {
        match *self {
            Segment::Fixed(a, width) => match *other {
                Segment::Fixed(b, _) => either_fixed(a, b, width),
                Segment::Bits(..) => if_zero(a, other),
            },
            Segment::Bits(..) => match *other {
                Segment::Fixed(b, _) => if_zero(b, self),
                Segment::Bits(..) => None,
            },
        }
    }

    /// The same bits of another cell.
    pub(crate) fn renamed(&self, from: &CellName, to: &CellName) -> Segment
        requires { IsSegment self.now }
        ensures segment { IsSegment result }
        ensures width { segment_width result ≡ segment_width self.now }
        ensures bits { segment_bits result ≡ renamed from.now to.now (segment_bits self.now) }
    {
        match *self {
            Segment::Bits(cell, low, high) => {
                Segment::Bits(renamed_cell(cell, from, to), low, high)
            }
            Segment::Fixed(..) => *self,
        }
    }

    /// Whether its bits are a cell's.
    pub(crate) fn mentions(&self, cell: &CellName) -> bool
        requires { IsSegment self.now }
        ensures { result ≡ mentions cell.now (segment_bits self.now) }
    {
        match self {
            Segment::Bits(other, _, _) => is_same_cell(other, cell),
            Segment::Fixed(..) => false,
        }
    }
}

fn is_same_cell(a: &CellName, b: &CellName) -> bool
    ensures { result ≡ is_same_cell a.now b.now }
{
    *a == *b
}

fn either_fixed(a: u64, b: u64, width: u8) -> Option<Segment>
    ensures { result ≡ (if bit_and a b == 0 then Some (Segment.Fixed (bit_or a b) width) else None) }
{
    if a & b == 0 {
        Some(Segment::Fixed(a | b, width))
    } else {
        None
    }
}

fn if_zero(value: u64, other: &Segment) -> Option<Segment>
    ensures { result ≡ (if value == 0 then Some other.now else None) }
{
    if value == 0 { Some(*other) } else { None }
}

fn renamed_cell(cell: CellName, from: &CellName, to: &CellName) -> CellName
    ensures { result ≡ renamed_cell from.now to.now cell }
{
    if is_same_cell(&cell, from) { *to } else { cell }
}
