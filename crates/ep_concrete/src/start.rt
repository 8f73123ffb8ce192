//! The memory at the start.

ghost use Rattle.std.specs.Prelude.{◌≡◌, ◌<◌, ◌≤◌, ◌^◌, ◌||◌, true, if◌then◌else◌, IfErr, IfOk, OnOk, length, map};
ghost use Rattle.std.specs.Prelude.{nat_eq, slice_get};
ghost use Rattle.ep_int.specs.declared.types.Scalar.TheVariants.{Int};
ghost use Rattle.ep_int.specs.Memory.{int, stored, zeroed};
ghost use Rattle.ep_bytes.specs.StoreView.{blank as undefined_all, count_of, memory_in, IsLike};
ghost use Rattle.ep_core.specs.Exec.{model, result_in};
ghost use Rattle.ep_core.specs.Program.{Block};
ghost use Rattle.ep_core.specs.declared.program.BlockInfo.{BlockInfo as Info};
ghost use Rattle.ep_core.specs.Runs.{blank, initial, is_global, is_result, main_function};
ghost use Rattle.ep_core.specs.ProgramView.{program_view};
ghost use Rattle.ep_core.specs.View.{block_view, init_view};
ghost use Rattle.ep_core.specs.WellFormed.{init_fits};
ghost use Rattle.ep_machine.specs.Settings.{program_in, IsLaid};

use ep_bytes::{Datum, Store};
use ep_core::program::{BlockInfo, CoreProgram, InitByte};
use ep_int::{Memory, Scalar};
use ep_machine::Setting;
use std::alloc::{AllocError, Global};

// The result of main.
fn main_result(p: &CoreProgram) -> Option<(u32, Scalar)>
    ensures { result ≡ result_in (slice_get (program_view p.now).functions p.now.main) }
{
    match p.functions.get(p.main as usize) {
        None => None,
        Some(f) => f.result,
    }
}

fn is_block(given: Option<(u32, Scalar)>, b: usize) -> bool
    ensures { result ≡ is_result given b }
{
    match given {
        None => false,
        Some(r) => r.0 as usize == b,
    }
}

fn size_list(alloc: Global, blocks: &[BlockInfo]) -> Result<Vec<u32>, AllocError>
    ensures { IfOk result (λ v. v.items ≡ map (λ (b : Info). b.size) blocks.now) }
{
    blocks.iter().map(|b| b.size).collect(alloc)
}

fn sizes_of(alloc: Global, blocks: &[BlockInfo]) -> Result<Vec<u32>, Memory>
    ensures { IfOk result (λ v. v.items ≡ map (λ (b : Block). b.size) (map block_view blocks.now)) }
{
    match size_list(alloc, blocks) {
        Ok(sizes) => Ok(sizes),
        Err(_) => Err(Memory),
    }
}

// Blocks of these sizes, all of them undefined.
fn undefined_store(alloc: Global, on: &Setting, sizes: &[u32]) -> Result<Store, Memory>
    requires { sizes.now ≡ map (λ (b : Block). b.size) (program_in on.now).blocks }
    ensures laid { IfOk result (λ s. IsLaid on.now s) }
    ensures blank { IfOk result (λ s. memory_in s ≡ undefined_all) }
{
    let store = Store::new(alloc, sizes, on.program.types.model())?;
    Ok(store)
}

// Whether a block is of zero bytes at the start: a global one, or main's result.
fn is_zero(blocks: &[BlockInfo], given: Option<(u32, Scalar)>, b: usize) -> bool
    requires { b < length blocks.now }
    ensures { result ≡ (is_global (slice_get (map block_view blocks.now) b) || is_result given b) }
{
    blocks[b].global | is_block(given, b)
}

// A block becomes zero bytes, if it is to.
fn zero_if(store: &mut Store, block: u32, is_wanted: bool)
    requires { block < count_of store.old }
    ensures like { IsLike store.old store.new }
    ensures zeroed { memory_in store.new
        ≡ (if is_wanted then zeroed (memory_in store.old) block else memory_in store.old) }
{
    if is_wanted {
        store.zero(block);
    }
}

// More blocks than numbers can name are more than memory has.
fn block_number(b: usize) -> Result<u32, Memory>
    ensures number { IfOk result (λ n. n ≡ b) }
    ensures full { IfErr result (λ _. 2 ^ 32 ≤ b) }
{
    match u32::try_from(b) {
        Ok(n) => Ok(n),
        Err(_) => Err(Memory),
    }
}

fn zero_blocks(on: &Setting, store: &mut Store) -> Result<(), Memory>
    requires laid { IsLaid on.now store.old }
    requires blank { memory_in store.old ≡ undefined_all }
    ensures laid { OnOk result (IsLaid on.now store.new) }
    ensures memory { OnOk result (memory_in store.new
        ≡ blank (program_in on.now).blocks (result_in (main_function on.now.order (program_in on.now)))) }
{
    let given = main_result(on.program);
    for b in 0..on.program.blocks.len() {
        let block = block_number(b)?;
        let is_wanted = is_zero(&on.program.blocks, given, b);
        zero_if(store, block, is_wanted);
    }
    Ok(())
}

// The first value of a scalar goes to its place.
fn set_first(on: &Setting, store: &mut Store, first: &InitByte)
    requires laid { IsLaid on.now store.old }
    requires fits { init_fits (program_in on.now).types (program_in on.now).blocks (init_view first.now) ≡ true }
    ensures laid { IsLaid on.now store.new }
    ensures memory { memory_in store.new ≡ stored on.now.order (model on.now.order (program_in on.now))
        (memory_in store.old) (Int first.now.t) first.now.block first.now.offset (int first.now.value) }
{
    let value = Datum::Int(first.value);
    let what = Scalar::Int(first.t);
    let place = i64::from(first.offset);
    let _stored = store.store(on.order, what, first.block, place, value);
}

fn set_firsts(on: &Setting, store: &mut Store)
    requires laid { IsLaid on.now store.old }
    requires blank { memory_in store.old
        ≡ blank (program_in on.now).blocks (result_in (main_function on.now.order (program_in on.now))) }
    ensures laid { IsLaid on.now store.new }
    ensures memory { memory_in store.new ≡ initial on.now.order (program_in on.now) }
{
    for first in &on.program.init {
        set_first(on, store, first);
    }
}

/// The memory before main: global blocks and main's result are zero bytes, with the first values in their places, and
/// all else is undefined.
pub(crate) fn first_memory(alloc: Global, on: &Setting) -> Result<Store, Memory>
    ensures laid { IfOk result (λ s. IsLaid on.now s) }
    ensures memory { IfOk result (λ s. memory_in s ≡ initial on.now.order (program_in on.now)) }
{
    let sizes = sizes_of(alloc, &on.program.blocks)?;
    let mut store = undefined_store(alloc, on, &sizes)?;
    zero_blocks(on, &mut store)?;
    set_firsts(on, &mut store);
    Ok(store)
}
