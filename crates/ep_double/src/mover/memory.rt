//! What is known of the bytes of blocks.

ghost use Rattle.std.specs.Prelude.{◌≡◌, ◌||◌, ◌≤◌, ◌^◌, ◌-◌, ◌*◌, IfOk, if◌then◌else◌, map, length};
ghost use Rattle.ep_int.specs.Types.{bytes_of};
ghost use Rattle.ep_core.specs.Program.{element};
ghost use Rattle.ep_core.specs.ProgramView.{program_view};
ghost use Rattle.ep_core.specs.View.{block_view, expr_view, init_view, place_view};
ghost use Rattle.ep_movers.specs.Movers as move;
ghost use Rattle.ep_movers.specs.Symbols.{goes_on};
ghost use Rattle.ep_double.specs.declared.mover.bytes.ByteState.TheVariants as states;
ghost use Rattle.ep_double.specs.ByteStates as rule;

use crate::mover::bytes::{ByteState, NumberBytes, fixed};
use crate::mover::form::{block_number, block_of, constant, is_result};
use crate::mover::numbers::{bits_of, is_number_of, word_of};
use ep_core::program::{BlockInfo, CoreProgram, InitByte};
use ep_core::tree::{Expr, Place};
use ep_int::{IntType, Order, Scalar, bytes, place};
use ep_movers::Stop;
use std::alloc::{AllocError, Global};

/// A byte of memory, and whether a statement wrote it.
#[derive(Clone, Copy, Debug)]
pub(crate) struct ByteHeld {
    state: ByteState,
    written: bool,
}

/// The bytes of each block.
pub(crate) type Memory = Vec<Vec<ByteHeld>>;

// ---- before the first statement

fn blank_state(is_zero: bool) -> ByteState
    ensures { result ≡ (if is_zero then states.Zero else states.Unset) }
{
    if is_zero {
        ByteState::Zero
    } else {
        ByteState::Unset
    }
}

fn blank_block(alloc: Global, count: u32, is_zero: bool) -> Result<Vec<ByteHeld>, AllocError>
    ensures { IfOk result (λ v. v.items ≡ rule.blank_states is_zero count) }
{
    let byte = ByteHeld {
        state: blank_state(is_zero),
        written: false,
    };
    let mut all = Vec::new(alloc);
    for i in 0..count {
        all.push(byte)?;
    }
    Ok(all)
}

// Globals and the result of main are zero.
fn is_blank_zero(b: &BlockInfo, is_result: bool) -> bool
    ensures { result ≡ (b.now.global || is_result) }
{
    b.global || is_result
}

fn blank_blocks(
    alloc: Global,
    result_block: Option<(u32, Scalar)>,
    blocks: &[BlockInfo],
) -> Result<Memory, AllocError>
    ensures { IfOk result (λ m. rule.states_in m.items
        ≡ rule.blank_blocks_states result_block 0 (map block_view blocks.now)) }
{
    let mut all = Vec::new(alloc);
    for (n, b) in blocks.iter().enumerate() {
        let is_zero = is_blank_zero(b, is_result(result_block, n));
        let bytes = blank_block(alloc, b.size, is_zero)?;
        all.push(bytes)?;
    }
    Ok(all)
}

fn set_byte(m: &mut Memory, block: u32, q: usize, state: ByteState)
    ensures { rule.states_in m.new.items ≡ rule.set_state (rule.states_in m.old.items) block q state }
{
    let at = block as usize;
    if at >= m.len() {
        return;
    }
    let bytes = &mut m[at];
    if q >= bytes.len() {
        return;
    }
    bytes[q] = ByteHeld {
        state,
        written: false,
    };
}

fn set_first_value(order: Order, m: &mut Memory, first: &InitByte)
    ensures { rule.states_in m.new.items
        ≡ rule.first_value_states order (rule.states_in m.old.items) (init_view first.now) }
{
    let width = bytes(first.t);
    let value = fixed(bits_of(first.value), width);
    for k in 0..width {
        let at = first.offset as usize + place(order, width, k) as usize;
        set_byte(m, first.block, at, value[k as usize]);
    }
}

/// The memory of a machine when main begins.
pub(crate) fn first_memory(
    alloc: Global,
    order: Order,
    p: &CoreProgram,
    result_block: Option<(u32, Scalar)>,
) -> Result<Memory, AllocError>
    ensures { IfOk result (λ m. rule.states_in m.items ≡ rule.first_states order (program_view p.now) result_block) }
{
    let mut m = blank_blocks(alloc, result_block, &p.blocks)?;
    for first in &p.init {
        set_first_value(order, &mut m, first);
    }
    Ok(m)
}

// ---- places

fn bytes_of_units(unit: u32, count: u32) -> usize
    ensures value { result ≡ unit * count }
    ensures within { result ≤ (2 ^ 32 - 1) * (2 ^ 32 - 1) }
{
    unit as usize * count as usize
}

// Where an element lies in its block.
fn offset_of(bound: u32, unit: u32, index: Option<i128>) -> Result<usize, Stop>
    ensures value { result ≡ move.offset_of bound unit index }
    ensures within { IfOk result (λ q. q ≤ (2 ^ 32 - 1) * (2 ^ 32 - 1)) }
{
    match index {
        None => Err(Stop::Foreign),
        Some(v) => element_offset(bound, unit, v),
    }
}

fn element_offset(bound: u32, unit: u32, index: i128) -> Result<usize, Stop>
    ensures value { result ≡ move.offset_of bound unit (Some index) }
    ensures within { IfOk result (λ q. q ≤ (2 ^ 32 - 1) * (2 ^ 32 - 1)) }
{
    if !is_number_of(IntType::U32, index) {
        return Err(Stop::Faulty);
    }
    let count = word_of(index);
    if count >= bound {
        return Err(Stop::Faulty);
    }
    Ok(bytes_of_units(unit, count))
}

// So many units from the begin of a block of so many bytes.
fn offset_to(size: usize, unit: u32, count: Option<i128>) -> Result<usize, Stop>
    ensures value { result ≡ move.offset_to size unit count }
    ensures within { IfOk result (λ q. q ≤ size) }
{
    match count {
        None => Err(Stop::Foreign),
        Some(v) => pointer_offset(size, unit, v),
    }
}

fn pointer_offset(size: usize, unit: u32, count: i128) -> Result<usize, Stop>
    ensures value { result ≡ move.offset_to size unit (Some count) }
    ensures within { IfOk result (λ q. q ≤ size) }
{
    if !is_number_of(IntType::U32, count) {
        return Err(Stop::Faulty);
    }
    let q = bytes_of_units(unit, word_of(count));
    if q > size {
        return Err(Stop::Faulty);
    }
    Ok(q)
}

/// The block that a place lies in, and where.
pub(crate) fn place_of(a: &Place) -> Result<(u32, usize), Stop>
    ensures value { result ≡ move.place_of (place_view a.now) }
    ensures within { IfOk result (λ w. w.1 ≤ (2 ^ 32 - 1) * (2 ^ 32 - 1)) }
{
    match a {
        Place::Block(b) => Ok((*b, 0)),
        Place::Element(a, bound, unit, i) => element_place(a, *bound, *unit, i),
        _ => Err(Stop::Foreign),
    }
}

fn element_place(a: &Place, bound: u32, unit: u32, i: &Expr) -> Result<(u32, usize), Stop>
    ensures value { result ≡ move.place_of (element (place_view a.now) bound unit (expr_view i.now)) }
    ensures within { IfOk result (λ w. w.1 ≤ (2 ^ 32 - 1) * (2 ^ 32 - 1)) }
{
    match a {
        Place::Block(b) => {
            let q = offset_of(bound, unit, constant(i))?;
            Ok((*b, q))
        }
        _ => Err(Stop::Foreign),
    }
}

fn bytes_of_block(m: &[Vec<ByteHeld>], block: u32) -> &[ByteHeld]
    ensures { result.now ≡ rule.states_of_block (rule.states_in m.now) block }
{
    match m.get(block as usize) {
        None => &[],
        Some(bytes) => bytes.as_slice(),
    }
}

// Where a pointer points: to a block, or to an element of it.
fn pointed_at(m: &[Vec<ByteHeld>], e: &Expr) -> Result<(u32, usize), Stop>
    ensures value { result ≡ rule.pointed_at (rule.states_in m.now) (expr_view e.now) }
    ensures within { IfOk result (λ w. w.1 ≤ length (rule.states_of_block (rule.states_in m.now) w.0)) }
{
    match e {
        Expr::AddrOf(a) => match block_number(a) {
            None => Err(Stop::Foreign),
            Some(b) => Ok((b, 0)),
        },
        Expr::PtrAdd(unit, _, e, n) => match block_of(e) {
            None => Err(Stop::Foreign),
            Some(b) => {
                let size = bytes_of_block(m, b).len();
                let q = offset_to(size, *unit, constant(n))?;
                Ok((b, q))
            }
        },
        _ => Err(Stop::Foreign),
    }
}

// ---- reads and writes

fn state_at(bytes: &[ByteHeld], q: usize) -> Result<ByteState, Stop>
    ensures { result ≡ rule.state_at bytes.now q }
{
    if q >= bytes.len() {
        return Err(Stop::Faulty);
    }
    let state = bytes[q].state;
    match state {
        ByteState::Unset => Err(Stop::Faulty),
        ByteState::Zero => Ok(state),
        ByteState::Other => Ok(state),
    }
}

/// The bytes of a number of the type at a place.
pub(crate) fn load(
    order: Order,
    m: &[Vec<ByteHeld>],
    t: IntType,
    at: (u32, usize),
) -> Result<NumberBytes, Stop>
    requires { at.1 ≤ (2 ^ 32 - 1) * (2 ^ 32 - 1) }
    ensures { rule.shown_number result
        ≡ rule.loaded_states order (rule.states_of_block (rule.states_in m.now) at.0) at.1 (bytes_of t) 0 (bytes_of t) }
{
    let held = bytes_of_block(m, at.0);
    let width = bytes(t);
    let mut all = NumberBytes::new();
    for k in 0..width {
        let state = state_at(held, at.1 + place(order, width, k) as usize)?;
        all.push(state);
    }
    Ok(all)
}

// A byte is written once alone.
fn put_byte(m: &mut Memory, block: u32, q: usize, state: ByteState) -> Result<(), Stop>
    ensures { rule.left result (rule.states_in m.new.items)
        ≡ rule.put_state (rule.states_in m.old.items) block q state }
{
    let at = block as usize;
    if at >= m.len() {
        return Err(Stop::Faulty);
    }
    let bytes = &mut m[at];
    if q >= bytes.len() {
        return Err(Stop::Faulty);
    }
    if bytes[q].written {
        return Err(Stop::Foreign);
    }
    bytes[q] = ByteHeld {
        state,
        written: true,
    };
    Ok(())
}

/// Writes a number of the type at a place.
pub(crate) fn write(
    order: Order,
    m: &mut Memory,
    t: IntType,
    at: (u32, usize),
    number: &[ByteState],
) -> Result<(), Stop>
    requires at { at.1 ≤ (2 ^ 32 - 1) * (2 ^ 32 - 1) }
    requires number { length number.now ≡ bytes_of t }
    ensures { rule.left result (rule.states_in m.new.items)
        ≡ rule.write_states order t (rule.states_in m.old.items) at number.now }
{
    let width = bytes(t);
    for k in 0..width {
        let q = at.1 + place(order, width, k) as usize;
        put_byte(m, at.0, q, number[k as usize])?;
    }
    Ok(())
}

/// Bytes from the begin of a block on become parts of inputs.
pub(crate) fn take(m: &mut Memory, block: u32, count: u32) -> Result<(), Stop>
    ensures { rule.left result (rule.states_in m.new.items)
        ≡ rule.take_states block 0 count (rule.states_in m.old.items) }
{
    for q in 0..count {
        put_byte(m, block, q as usize, ByteState::Other)?;
    }
    Ok(())
}

/// Bytes from an address on are put out.
pub(crate) fn show(m: &[Vec<ByteHeld>], e: &Expr, count: u32) -> Result<(), Stop>
    ensures { rule.left result (rule.states_in m.now)
        ≡ goes_on (rule.pointed_at (rule.states_in m.now) (expr_view e.now))
        (λ w. rule.show_states (rule.states_of_block (rule.states_in m.now) w.0) w.1 count (rule.states_in m.now)) }
{
    let at = pointed_at(m, e)?;
    let bytes = bytes_of_block(m, at.0);
    show_bytes(bytes, at.1, count)
}

fn show_bytes(bytes: &[ByteHeld], from: usize, count: u32) -> Result<(), Stop>
    requires { from ≤ length bytes.now }
    ensures { (m : rule.States) → rule.left result m ≡ rule.show_states bytes.now from count m }
{
    for i in 0..count {
        let _state = state_at(bytes, from + i as usize)?;
    }
    Ok(())
}
