//! The first values of a program's globals, found by their places.

ghost use Rattle.std.specs.Prelude.{◌≡◌, IfOk, unwrap_or, pos};
ghost use Rattle.std.specs.BTreeMap.{get};
ghost use Rattle.ep_transfer_entry.specs.First.{place_cmp, HasFirst};

use ep_core::program::InitByte;
use ep_int::Memory;
use std::alloc::{AllocError, Global};
use std::collections::BTreeMap;

fn collected(alloc: Global, init: &[InitByte]) -> Result<BTreeMap<(u32, u32), i128>, AllocError>
    ensures { IfOk result (HasFirst init.now) }
{
    init.iter()
        .map(|i| ((i.block, i.offset), i.value))
        .collect(alloc)
}

/// The first values by block and offset: of two of one place the later. Takes n log n for n of them.
pub(crate) fn first_values(
    alloc: Global,
    init: &[InitByte],
) -> Result<BTreeMap<(u32, u32), i128>, Memory>
    ensures { IfOk result (HasFirst init.now) }
{
    match collected(alloc, init) {
        Ok(values) => Ok(values),
        Err(_) => Err(Memory),
    }
}

/// The first value of a place: zero where none is given.
pub(crate) fn first_number(values: &BTreeMap<(u32, u32), i128>, block: u32, offset: u32) -> i128
    ensures { result ≡ unwrap_or (get place_cmp values.now (block, offset)) (pos 0) }
{
    match values.get(&(block, offset)) {
        None => 0,
        Some(v) => *v,
    }
}
