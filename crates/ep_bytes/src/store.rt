//! The bytes of the blocks of a program.

ghost use Rattle.std.specs.Prelude.{◌≡◌, ℕ, ◌+◌, ◌<◌, ◌≤◌, ◌%◌, ◌^◌, [], ◌∷◌, if◌then◌else◌, length, unsigned_abs};
ghost use Rattle.std.specs.Prelude.{slice_index, IfOk, IfErr, OnOk, OnErr};
ghost use Rattle.ep_int.specs.Memory.{bytes_of_value, copied, filled, killed, loaded, replaced, store_fault, stored};
ghost use Rattle.ep_int.specs.Memory.{undefined, zeroed};
ghost use Rattle.ep_int.specs.declared.types.Model.{Model as Sizes};
ghost use Rattle.ep_int.specs.Types.{size_of};
ghost use Rattle.ep_bytes.specs.View.{byte_in, fault_at, found_at, read_as, value_in, written_as, Fits};
ghost use Rattle.ep_bytes.specs.Cells.{content_at};
ghost use Rattle.ep_bytes.specs.StoreView.{blank, block_of, copy_fault, count_of, is_same, memory_in, place_fault};
ghost use Rattle.ep_bytes.specs.StoreView.{size_in, IsExtended, IsLike, IsOutside, IsPlace};

use crate::cells::{ByteRange, Cells, Content};
use crate::numbers::encode;
use crate::reads::{is_any_undefined, value};
use crate::types::Datum;
use ep_alarms::AlarmKind;
use ep_int::{Memory, Model as DataModel, Order, Scalar, size};
use std::alloc::Global;
use std::marker::Model;

/// Where a block lies among the bytes.
#[derive(Clone, Copy, Debug, Drop)]
pub(crate) struct Block {
    start: usize,
    size: u32,
    // since it was last undefined as a whole
    is_zeroed: bool,
}

/// The bytes of all blocks of a program, on a machine of a data model.
#[derive(Debug, Drop)]
pub struct Store {
    model: DataModel,
    blocks: Vec<Block>,
    cells: Cells,
}

impl Model for Store {
    ghost use Rattle.std.specs.Prelude.{length};
    ghost use Rattle.ep_bytes.specs.StoreView.{StoreView, AreLaid};

    ghost Value = { StoreView };

    ghost view = { λ s. record {
      model = s.model;
      blocks = s.blocks.items;
      cells = s.cells;
    } };

    ghost invariant = { λ s. AreLaid s.blocks.items (length s.cells) };
}

impl Store {
    /// Blocks of these sizes, in bytes, all of them undefined. No other call takes memory.
    pub fn new(alloc: Global, sizes: &[u32], model: DataModel) -> Result<Store, Memory>
        ensures model { IfOk result (λ s. s.model ≡ model) }
        ensures count { IfOk result (λ s. count_of s ≡ length sizes.now) }
        ensures sizes { IfOk result (λ s. (b : ℕ) → size_in s b ≡ slice_index sizes.now b) }
        ensures blank { IfOk result (λ s. memory_in s ≡ blank) }
    {
        let mut blocks = Vec::new(alloc);
        let mut cells = Cells::new(alloc, sizes.len()).map_err(|_| Memory)?;
        for size in sizes {
            let block = Block {
                start: cells.len(),
                size: *size,
                is_zeroed: false,
            };
            blocks.push(block).map_err(|_| Memory)?;
            extend(&mut cells, *size)?;
        }
        Ok(Store {
            model,
            blocks,
            cells,
        })
    }

    /// The scalar at an offset of a block. Out of bounds is `U5`, an offset that is no multiple of the scalar's size
    /// `U7`, an undefined byte `U4`, and bytes of a pointer where a number is read, or other bytes than those of one
    /// pointer where a pointer is read, `U10`: the first of these that holds.
    pub fn load(
        &self,
        order: Order,
        what: Scalar,
        block: u32,
        offset: i64,
    ) -> Result<Datum, AlarmKind>
        requires { block < count_of self.now }
        ensures value { result ≡ read_as (found_at offset
            (loaded order self.now.model (size_in self.now block) (memory_in self.now) what block)) }
        ensures fits { IfOk result (λ d. Fits what d) }
    {
        let place = self.scalar_place(what, block, offset)?;
        let bytes = self.cells.range(&place);
        if is_any_undefined(bytes) {
            return Err(AlarmKind::U4);
        }
        value(order, self.model, what, bytes)
    }

    /// Stores a scalar at an offset of a block. Out of bounds is `U5`, an offset that is no multiple of the scalar's
    /// size `U7`.
    pub fn store(
        &mut self,
        order: Order,
        what: Scalar,
        block: u32,
        offset: i64,
        d: Datum,
    ) -> Result<(), AlarmKind>
        requires block { block < count_of self.old }
        requires fits { Fits what d }
        ensures answer { result
            ≡ written_as (fault_at offset (store_fault self.old.model (size_in self.old block) what)) }
        ensures like { IsLike self.old self.new }
        ensures stored { OnOk result (memory_in self.new
            ≡ stored order self.old.model (memory_in self.old) what block (unsigned_abs offset) (value_in d)) }
        ensures err { OnErr result (self.new ≡ self.old) }
    {
        let place = self.scalar_place(what, block, offset)?;
        let size = block_at(&self.blocks, block).size as usize;
        self.cells
            .replace(self.model, &place, size, &content(order, what, d));
        Ok(())
    }

    /// Copies `n` bytes. Out of bounds is `U5`, of `to` before `from`, and a byte in common is `U9`. With `same_place`,
    /// a copy to the place from which it comes changes nothing.
    pub fn copy(
        &mut self,
        to: (u32, i64),
        from: (u32, i64),
        n: u32,
        same_place: bool,
    ) -> Result<(), AlarmKind>
        requires to { to.0 < count_of self.old }
        requires from { from.0 < count_of self.old }
        ensures answer { result ≡ written_as (copy_fault self.old to from n (is_same to from same_place)) }
        ensures like { IsLike self.old self.new }
        ensures copied { OnOk result (memory_in self.new ≡ (if is_same to from same_place then memory_in self.old
            else copied self.old.model (memory_in self.old) to.0 (unsigned_abs to.1) from.0 (unsigned_abs from.1) n)) }
        ensures err { OnErr result (self.new ≡ self.old) }
    {
        let target = self.place(to.0, to.1, n)?;
        let source = self.place(from.0, from.1, n)?;
        if same_place && to.0 == from.0 && target.here == source.here {
            return Ok(());
        }
        if to.0 == from.0 && target.overlaps(&source) {
            return Err(AlarmKind::U9);
        }
        let size = block_at(&self.blocks, to.0).size as usize;
        self.cells.copy(self.model, &target, size, &source);
        Ok(())
    }

    /// Puts one number into each of `n` bytes. Out of bounds is `U5`.
    pub fn fill(&mut self, to: (u32, i64), value: u8, n: u32) -> Result<(), AlarmKind>
        requires { to.0 < count_of self.old }
        ensures answer { result ≡ written_as (place_fault self.old to n) }
        ensures like { IsLike self.old self.new }
        ensures filled { OnOk result (memory_in self.new
            ≡ filled self.old.model (memory_in self.old) to.0 (unsigned_abs to.1) n value) }
        ensures err { OnErr result (self.new ≡ self.old) }
    {
        let place = self.place(to.0, to.1, n)?;
        let size = block_at(&self.blocks, to.0).size as usize;
        self.cells
            .replace(self.model, &place, size, &Content::Number(value));
        Ok(())
    }

    /// Makes `n` bytes undefined. Out of bounds is `U5`.
    pub fn clear(&mut self, to: (u32, i64), n: u32) -> Result<(), AlarmKind>
        requires { to.0 < count_of self.old }
        ensures answer { result ≡ written_as (place_fault self.old to n) }
        ensures like { IsLike self.old self.new }
        ensures cleared { OnOk result (memory_in self.new
            ≡ replaced self.old.model (memory_in self.old) to.0 (unsigned_abs to.1) n (λ k. undefined)) }
        ensures err { OnErr result (self.new ≡ self.old) }
    {
        let place = self.place(to.0, to.1, n)?;
        let size = block_at(&self.blocks, to.0).size as usize;
        self.cells
            .replace(self.model, &place, size, &Content::Undefined);
        Ok(())
    }

    /// Whether `n` bytes lie in their block: if not, `U5`.
    pub fn check(&self, at: (u32, i64), n: u32) -> Result<(), AlarmKind>
        requires { at.0 < count_of self.now }
        ensures { result ≡ written_as (place_fault self.now at n) }
    {
        let _place = self.place(at.0, at.1, n)?;
        Ok(())
    }

    /// Makes each byte of a block 0.
    pub fn zero(&mut self, block: u32)
        requires { block < count_of self.old }
        ensures like { IsLike self.old self.new }
        ensures zeroed { memory_in self.new ≡ zeroed (memory_in self.old) block }
    {
        let whole = block_at(&self.blocks, block);
        self.cells
            .write(whole.start, whole.size as usize, &Content::Number(0));
        self.blocks[block as usize] = Block {
            is_zeroed: true,
            ..whole
        };
    }

    /// Makes a block undefined, and every pointer to it.
    pub fn kill(&mut self, block: u32)
        requires { block < count_of self.old }
        ensures like { IsLike self.old self.new }
        ensures killed { memory_in self.new ≡ killed (block ∷ []) (memory_in self.old) }
    {
        let whole = block_at(&self.blocks, block);
        self.cells.forget(block);
        self.cells.undefine(whole.start, whole.size as usize);
        self.blocks[block as usize] = Block {
            is_zeroed: false,
            ..whole
        };
    }

    // Where a scalar at an offset of a block lies, or what is wrong with that place.
    fn scalar_place(&self, what: Scalar, block: u32, offset: i64) -> Result<ByteRange, AlarmKind>
        requires { block < count_of self.now }
        ensures ok { IfOk result (IsPlace self.now block offset (size_of self.now.model what)) }
        ensures aligned { IfOk result (λ s. s.here % size_of self.now.model what ≡ 0) }
        ensures err { IfErr result (λ k. written_as
            (fault_at offset (store_fault self.now.model (size_in self.now block) what)) ≡ Err k) }
    {
        let width = size(self.model, what);
        let place = self.place(block, offset, width)?;
        if place.here % width as usize != 0 {
            return Err(AlarmKind::U7);
        }
        Ok(place)
    }

    // Where `n` bytes of a block lie, or `U5`.
    fn place(&self, block: u32, offset: i64, n: u32) -> Result<ByteRange, AlarmKind>
        requires { block < count_of self.now }
        ensures ok { IfOk result (IsPlace self.now block offset n) }
        ensures small { IfOk result (λ s. s.here + s.count < 2 ^ 32) }
        ensures err { IfErr result (λ k. (k ≡ AlarmKind.U5) × IsOutside self.now block offset n) }
    {
        let whole = block_at(&self.blocks, block);
        if offset < 0 || offset > i64::from(whole.size) - i64::from(n) {
            return Err(AlarmKind::U5);
        }
        Ok(ByteRange {
            start: whole.start,
            here: offset as usize,
            count: n as usize,
        })
    }
}

fn block_at(blocks: &[Block], block: u32) -> Block
    requires { block < length blocks.now }
    ensures { result ≡ block_of blocks.now block }
{
    blocks[block as usize]
}

// So many bytes more, undefined.
fn extend(cells: &mut Cells, count: u32) -> Result<(), Memory>
    ensures { OnOk result (IsExtended cells.old cells.new count) }
{
    for _byte in 0..count {
        cells.push().map_err(|_| Memory)?;
    }
    Ok(())
}

// The bytes of a value.
fn content(order: Order, what: Scalar, d: Datum) -> Content
    requires { Fits what d }
    ensures { (m : Sizes) (k : ℕ) → k < size_of m what
        → byte_in (content_at result k) ≡ bytes_of_value order what (value_in d) k }
{
    match what {
        Scalar::Int(t) => match d {
            Datum::Int(v) => Content::Numbers(encode(order, t, v)),
            Datum::Null | Datum::Pointer(_, _) => Content::Undefined,
        },
        Scalar::Pointer => match d {
            Datum::Int(_) => Content::Undefined,
            Datum::Null => Content::Number(0),
            Datum::Pointer(block, offset) => Content::Pointer(block, offset),
        },
    }
}
