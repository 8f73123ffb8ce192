//! A flat buffer of bytes, which knows where pointers to a block may be.

ghost use Rattle.std.specs.Prelude.{◌≡◌, ℕ, ◌+◌, ◌-◌, ◌<◌, ◌≤◌, ◌⊎◌, ◌^◌, [], ◌∷◌, ◌++◌, length, take, drop};
ghost use Rattle.std.specs.Prelude.{◌*◌, false, slice_set, OnOk, IfOk, ◌&&◌, nat_lt};
ghost use Rattle.ep_int.specs.Memory.{lies_partly};
ghost use Rattle.ep_bytes.specs.declared.types.Byte.TheVariants.{Undefined};
ghost use Rattle.ep_bytes.specs.View.{byte_in};
ghost use Rattle.ep_bytes.specs.Cells.{cell_at, part_of, without, unbroken, content_at, taken_from, cut_by};
ghost use Rattle.ep_bytes.specs.Cells.{IsWritten, IsBroken, IsCleared, IsReplaced};

use crate::pages::{PAGE, begin, forget_page, may_hold, note};
use crate::spans::{Span, cover, forget_in, forget_run};
use crate::types::Byte;
use ep_int::{Model as DataModel, pointer_bytes};
use std::alloc::{AllocError, Global};
use std::marker::Model;

/// The bytes of all blocks.
#[derive(Debug, Drop)]
pub(crate) struct Cells {
    bytes: Vec<Byte>,
    // for each block, where parts of pointers to it may be
    spans: Vec<Span>,
    // for each page, whether a byte of it may be other than undefined; where there is none for a page, it may
    used: Vec<bool>,
}

impl Model for Cells {
    ghost use Rattle.std.specs.Prelude.{List};
    ghost use Rattle.ep_bytes.specs.declared.types.Byte.{Byte};

    ghost Value = { List Byte };

    ghost use Rattle.ep_bytes.specs.Cells.{AreNoted};

    ghost view = { λ s. s.bytes.items };

    ghost invariant = { λ s. AreNoted s.bytes.items s.spans.items s.used.items };
}

/// What is written into some bytes.
#[derive(Clone, Copy, Debug)]
pub(crate) enum Content {
    Undefined,
    /// One number in each.
    Number(u8),
    Numbers([u8; 8]),
    /// The parts of a pointer.
    Pointer(u32, u32),
}

impl Content {
    fn byte(&self, k: usize) -> Byte
        ensures value { result ≡ content_at self.now k }
        ensures part { part_of result < 8 }
    {
        match self {
            Content::Undefined => Byte::Undefined,
            Content::Number(v) => Byte::Number(*v),
            Content::Numbers(all) => Byte::Number(if k < 8 { all[k] } else { 0 }),
            Content::Pointer(block, offset) => {
                if k < 8 {
                    Byte::Fragment(*block, *offset, k as u8)
                } else {
                    Byte::Undefined
                }
            }
        }
    }
}

/// Some bytes of a block.
#[derive(Clone, Copy, Debug)]
pub(crate) struct ByteRange {
    /// where the block starts
    pub(crate) start: usize,
    /// the offset of the first of the bytes
    pub(crate) here: usize,
    pub(crate) count: usize,
}

impl ByteRange {
    /// Whether two places of one size in one block have a byte in common.
    pub(crate) fn overlaps(&self, other: &ByteRange) -> bool
        requires own { self.now.here + self.now.count < 2 ^ 33 }
        requires other { other.now.here + self.now.count < 2 ^ 33 }
        ensures { result ≡ (nat_lt self.now.here (other.now.here + self.now.count)
            && nat_lt other.now.here (self.now.here + self.now.count)) }
    {
        self.here < other.here + self.count && other.here < self.here + self.count
    }

    // Whether a byte at offset `p` of the block is a part of a pointer that lies partly in the place.
    fn cuts(&self, model: DataModel, byte: Byte, p: usize) -> bool
        requires place { self.now.here + self.now.count < 2 ^ 33 }
        requires offset { p < 2 ^ 33 }
        ensures { result ≡ lies_partly model self.now.here self.now.count (byte_in byte) p }
    {
        match byte {
            Byte::Undefined | Byte::Number(_) => false,
            Byte::Fragment(_, _, part) => {
                let low = self.here + part as usize;
                let high = self.here + self.count + part as usize;
                let end = p + pointer_bytes(model) as usize;
                p < high && low < end && !(low <= p && end <= high)
            }
        }
    }

    // The byte at offset `p`, or an undefined one, if it is a part of a pointer that lies partly in the place.
    fn kept(&self, model: DataModel, byte: Byte, p: usize) -> Byte
        requires place { self.now.here + self.now.count < 2 ^ 33 }
        requires offset { p < 2 ^ 33 }
        requires part { part_of byte < 8 }
        ensures value { result ≡ unbroken model self.now.here self.now.count byte p }
        ensures part { part_of result < 8 }
    {
        if self.cuts(model, byte, p) {
            Byte::Undefined
        } else {
            byte
        }
    }
}

impl Cells {
    /// No bytes yet, of so many blocks.
    pub(crate) fn new(alloc: Global, blocks: usize) -> Result<Cells, AllocError>
        ensures { IfOk result (λ s. s ≡ []) }
    {
        let mut spans = Vec::new(alloc);
        for _block in 0..blocks {
            spans.push(Span::NOWHERE)?;
        }
        Ok(Cells {
            bytes: Vec::new(alloc),
            spans,
            used: Vec::new(alloc),
        })
    }

    /// One more byte, undefined.
    pub(crate) fn push(&mut self) -> Result<(), AllocError>
        ensures { OnOk result (self.new ≡ self.old ++ Undefined ∷ []) }
    {
        begin(&mut self.used, self.bytes.len())?;
        self.bytes.push(Byte::Undefined)?;
        Ok(())
    }

    /// How many bytes there are. Its clauses are what sums of places and parts of pointers rest on.
    pub(crate) fn len(&self) -> usize
        ensures value { result ≡ length self.now }
        ensures small { length self.now < 2 ^ 63 }
        ensures parts { (i : ℕ) → part_of (cell_at self.now i) < 8 }
    {
        self.bytes.len()
    }

    fn get(&self, at: usize) -> Byte
        requires { at < length self.now }
        ensures value { result ≡ cell_at self.now at }
        ensures part { part_of result < 8 }
    {
        self.bytes[at]
    }

    fn put(&mut self, at: usize, byte: Byte)
        requires inside { at < length self.old }
        requires part { part_of byte < 8 }
        ensures { self.new ≡ slice_set self.old at byte }
    {
        cover(&mut self.spans, at, byte);
        note(&mut self.used, at, byte);
        self.bytes[at] = byte;
    }

    /// The bytes of a place.
    pub(crate) fn range(&self, place: &ByteRange) -> &[Byte]
        requires { place.now.start + place.now.here + place.now.count ≤ length self.now }
        ensures { result.now ≡ take place.now.count (drop (place.now.start + place.now.here) self.now) }
    {
        let bytes = self.bytes.as_slice();
        let from = place.start + place.here;
        &bytes[from..from + place.count]
    }

    /// Writes so many bytes from a place on, and leaves all others.
    pub(crate) fn write(&mut self, at: usize, count: usize, content: &Content)
        requires { at + count ≤ length self.old }
        ensures { IsWritten self.old self.new at count (content_at content.now) }
    {
        let _total = self.len();
        for k in 0..count {
            let byte = content.byte(k);
            self.put(at + k, byte);
        }
    }

    // Notes that each byte of a page is undefined.
    fn forget_page(&mut self, page: usize)
        requires { (i : ℕ) → page * 1024 ≤ i → i < page * 1024 + 1024 → cell_at self.old i ≡ Undefined }
        ensures { self.new ≡ self.old }
    {
        forget_page(&mut self.used, page);
    }

    fn is_page_used(&self, page: usize) -> bool
        ensures { result ≡ false → (i : ℕ) → page * 1024 ≤ i → i < page * 1024 + 1024 → cell_at self.now i ≡ Undefined }
    {
        may_hold(&self.used, page)
    }

    // On a page, makes undefined the bytes from one place on and before another.
    fn clear_on(&mut self, page: usize, from: usize, to: usize)
        requires inside { to ≤ length self.old }
        requires on { (page * 1024 ≤ from) × (to ≤ page * 1024 + 1024) }
        ensures { IsCleared from to self.old self.new }
    {
        let _total = self.len();
        if from >= to {
            return;
        }
        if !self.is_page_used(page) {
            return;
        }
        self.write(from, to - from, &Content::Undefined);
        if to - from != PAGE {
            return;
        }
        self.forget_page(page);
    }

    /// Makes so many bytes from a place on undefined, and leaves all others. It takes the time of the pages in which
    /// bytes were written, and of a look at each other page.
    pub(crate) fn undefine(&mut self, at: usize, count: usize)
        requires { at + count ≤ length self.old }
        ensures { IsWritten self.old self.new at count (λ k. Undefined) }
    {
        let _total = self.len();
        let end = at + count;
        for page in at / PAGE..end.div_ceil(PAGE) {
            let start = page * PAGE;
            self.clear_on(page, at.max(start), end.min(start + PAGE));
        }
    }

    // Copies the bytes of a place to another that has no byte in common with it. Of a pointer that lies partly in the
    // place from which they come, nothing is copied.
    fn move_in(&mut self, model: DataModel, at: usize, from: &ByteRange)
        requires to { at + from.now.count ≤ length self.old }
        requires inside { from.now.start + from.now.here + from.now.count ≤ length self.old }
        requires small { from.now.here + from.now.count < 2 ^ 33 }
        requires apart { (at + from.now.count ≤ from.now.start + from.now.here)
            ⊎ (from.now.start + from.now.here + from.now.count ≤ at) }
        ensures { IsWritten self.old self.new at from.now.count (taken_from model self.old from.now) }
    {
        let _total = self.len();
        for k in 0..from.count {
            let byte = self.get(from.start + from.here + k);
            let kept = from.kept(model, byte, from.here + k);
            self.put(at + k, kept);
        }
    }

    // At offsets from `low` on and before `high`, makes undefined what is a part of a pointer that lies partly in the
    // place.
    fn cut(&mut self, model: DataModel, place: &ByteRange, low: usize, high: usize)
        requires ordered { low ≤ high }
        requires inside { place.now.start + high ≤ length self.old }
        requires small { place.now.here + place.now.count < 2 ^ 33 }
        requires offsets { high < 2 ^ 33 }
        ensures { IsWritten self.old self.new (place.now.start + low) (high - low)
            (cut_by model self.old place.now low) }
    {
        let _total = self.len();
        for k in 0..high - low {
            let at = place.start + low + k;
            let byte = self.get(at);
            let kept = place.kept(model, byte, low + k);
            self.put(at, kept);
        }
    }

    // Makes undefined each pointer that lies partly in the place, beside it. A pointer has at most 8 bytes, so no other
    // byte of the block is a part of one.
    fn break_beside(&mut self, model: DataModel, place: &ByteRange, size: usize)
        requires fits { place.now.here + place.now.count ≤ size }
        requires inside { place.now.start + size ≤ length self.old }
        requires small { size < 2 ^ 32 }
        ensures { IsBroken model self.old self.new place.now size }
    {
        let _total = self.len();
        let end = place.here + place.count;
        let low = place.here.saturating_sub(7);
        let high = (end + 7).min(size);
        self.cut(model, place, low, place.here);
        self.cut(model, place, end, high);
    }

    /// Writes the bytes of a place, in a block of `size` bytes.
    pub(crate) fn replace(
        &mut self,
        model: DataModel,
        place: &ByteRange,
        size: usize,
        content: &Content,
    )
        requires fits { place.now.here + place.now.count ≤ size }
        requires inside { place.now.start + size ≤ length self.old }
        requires small { size < 2 ^ 32 }
        ensures { IsReplaced model self.old self.new place.now size (content_at content.now) }
    {
        let _total = self.len();
        self.write(place.start + place.here, place.count, content);
        self.break_beside(model, place, size);
    }

    /// Copies to a place, in a block of `size` bytes, the bytes of another that has no byte in common with it. Of a
    /// pointer that lies partly in the place from which they come, nothing is copied.
    pub(crate) fn copy(
        &mut self,
        model: DataModel,
        place: &ByteRange,
        size: usize,
        from: &ByteRange,
    )
        requires fits { place.now.here + place.now.count ≤ size }
        requires inside { place.now.start + size ≤ length self.old }
        requires small { size < 2 ^ 32 }
        requires source { from.now.start + from.now.here + from.now.count ≤ length self.old }
        requires near { from.now.here + from.now.count < 2 ^ 33 }
        requires counts { from.now.count ≡ place.now.count }
        requires apart { (place.now.start + place.now.here + place.now.count ≤ from.now.start + from.now.here)
            ⊎ (from.now.start + from.now.here + from.now.count ≤ place.now.start + place.now.here) }
        ensures { IsReplaced model self.old self.new place.now size (taken_from model self.old from.now) }
    {
        let _total = self.len();
        self.move_in(model, place.start + place.here, from);
        self.break_beside(model, place, size);
    }

    /// Makes undefined every part of a pointer to the block.
    pub(crate) fn forget(&mut self, block: u32)
        ensures len { length self.new ≡ length self.old }
        ensures forgotten { (i : ℕ) → cell_at self.new i ≡ without block (cell_at self.old i) }
    {
        let b = block as usize;
        if b < self.spans.len() {
            forget_in(&mut self.bytes, self.spans[b], block);
            self.spans[b] = Span::NOWHERE;
        } else {
            let end = self.bytes.len();
            forget_run(&mut self.bytes, 0, end, block);
        }
    }
}
