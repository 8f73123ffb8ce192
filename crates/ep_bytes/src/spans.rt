//! Where pointers to a block may be.

ghost use Rattle.std.specs.Prelude.{◌≡◌, ℕ, ◌<◌, ◌%◌, ◌^◌, ◌↔◌, IsTrue, true, length};
ghost use Rattle.std.specs.Int.{bit_at};
ghost use Rattle.ep_bytes.specs.Cells.{cell_at, points_to, without, span_of, IsForgotten, IsIn};

use crate::pages::PAGE;
use crate::types::Byte;

/// The places from one on and before another that lie on marked pages. Bit k marks each page whose number is k modulo
/// 64.
#[derive(Clone, Copy, Debug, Drop)]
pub(crate) struct Span {
    pub(crate) from: usize,
    pub(crate) to: usize,
    pub(crate) pages: u64,
}

impl Span {
    pub(crate) const NOWHERE: Span = Span {
        from: 0,
        to: 0,
        pages: 0,
    };

    // A span that has one place more.
    fn with(self, at: usize) -> Span
        requires { at < 2 ^ 63 }
        ensures own { IsIn result at }
        ensures others { (i : ℕ) → IsIn self i → IsIn result i }
    {
        let pages = self.pages | 1 << (at / PAGE % 64);
        if self.from < self.to {
            Span {
                from: self.from.min(at),
                to: self.to.max(at + 1),
                pages,
            }
        } else {
            Span {
                from: at,
                to: at + 1,
                pages,
            }
        }
    }

    // Whether a page is marked.
    fn marks(self, page: usize) -> bool
        ensures { IsTrue result ↔ (bit_at self.pages (page % 64) ≡ 1) }
    {
        (self.pages >> (page % 64)) & 1 == 1
    }
}

/// Notes that a byte comes to a place.
pub(crate) fn cover(spans: &mut Vec<Span>, at: usize, byte: Byte)
    requires { at < 2 ^ 63 }
    ensures len { length spans.new.items ≡ length spans.old.items }
    ensures own { (b : ℕ) → b < length spans.old.items → points_to b byte ≡ true → IsIn (span_of spans.new.items b) at }
    ensures others { (b i : ℕ) → IsIn (span_of spans.old.items b) i → IsIn (span_of spans.new.items b) i }
{
    match byte {
        Byte::Undefined | Byte::Number(_) => {}
        Byte::Fragment(block, _, _) => {
            let b = block as usize;
            if b < spans.len() {
                let wider = spans[b].with(at);
                spans[b] = wider;
            }
        }
    }
}

/// Makes undefined, among the places of the span, every part of a pointer to the block.
pub(crate) fn forget_in(bytes: &mut Vec<Byte>, span: Span, block: u32)
    ensures len { length bytes.new.items ≡ length bytes.old.items }
    ensures inside { (i : ℕ) → IsIn span i → cell_at bytes.new.items i ≡ without block (cell_at bytes.old.items i) }
    ensures outside { (i : ℕ) → ¬ (IsIn span i) → cell_at bytes.new.items i ≡ cell_at bytes.old.items i }
{
    let end = span.to.min(bytes.len()).div_ceil(PAGE);
    let first = (span.from / PAGE).min(end);
    for page in first..end {
        if span.marks(page) {
            let start = page * PAGE;
            forget_run(
                bytes,
                span.from.max(start),
                span.to.min(start + PAGE),
                block,
            );
        }
    }
}

/// The same, among the places from one on and before another.
pub(crate) fn forget_run(bytes: &mut Vec<Byte>, from: usize, to: usize, block: u32)
    ensures { IsForgotten block from to bytes.old.items bytes.new.items }
{
    let to = to.min(bytes.len());
    let from = from.min(to);
    for i in from..to {
        let left = without_pointer(bytes[i], block);
        bytes[i] = left;
    }
}

fn without_pointer(byte: Byte, block: u32) -> Byte
    ensures { result ≡ without block byte }
{
    match byte {
        Byte::Undefined | Byte::Number(_) => byte,
        Byte::Fragment(b, _, _) => { if b == block { Byte::Undefined } else { byte } }
    }
}
