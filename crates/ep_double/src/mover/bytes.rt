//! What is known of the bytes of numbers.

ghost use Rattle.std.specs.Prelude.{◌≡◌, ◌+◌, ◌-◌, ◌<◌, ◌≤◌, if◌then◌else◌, length, nat_eq, nat_lt, slice_index_or};
ghost use Rattle.arrayvec.specs.ArrayVec.{array_vec_len};
ghost use Rattle.ep_double.specs.declared.mover.bytes.ByteState.TheVariants as states;
ghost use Rattle.ep_double.specs.ByteStates as rule;

use crate::mover::numbers::{bits_of, byte_at, bytes_moved, is_mask};
use arrayvec::ArrayVec;
use ep_int::BinOp;
use ep_movers::Stop;

/// Of a byte of a number, or of memory.
#[derive(Clone, Copy, Debug, Default)]
pub(crate) enum ByteState {
    #[default]
    Unset,
    /// The number 0, whatever the inputs are.
    Zero,
    /// Another number, or a byte of an input.
    Other,
}

/// The bytes of a number, the lowest first.
pub(crate) type NumberBytes = ArrayVec<ByteState, 8>;

/// So many bytes of a constant, by its bits.
pub(crate) fn fixed(n: u64, count: u32) -> NumberBytes
    requires { count ≤ 8 }
    ensures value { result.items ≡ rule.fixed_states n 0 count }
    ensures count { array_vec_len result ≡ count }
{
    let mut all = NumberBytes::new();
    for k in 0..count {
        all.push(state_of_byte(byte_at(n, k)));
    }
    all
}

fn state_of_byte(byte: u8) -> ByteState
    ensures { result ≡ rule.state_of_byte byte }
{
    if byte == 0 {
        ByteState::Zero
    } else {
        ByteState::Other
    }
}

// A sum, or a bitwise or, of two bytes of which one is 0.
fn merged_byte(x: ByteState, y: ByteState) -> Result<ByteState, Stop>
    ensures { result ≡ rule.merged_state x y }
{
    match x {
        ByteState::Zero => Ok(y),
        ByteState::Unset => match y {
            ByteState::Zero => Ok(x),
            ByteState::Unset => Err(Stop::Foreign),
            ByteState::Other => Err(Stop::Foreign),
        },
        ByteState::Other => match y {
            ByteState::Zero => Ok(x),
            ByteState::Unset => Err(Stop::Foreign),
            ByteState::Other => Err(Stop::Foreign),
        },
    }
}

fn merged(xs: &[ByteState], ys: &[ByteState]) -> Result<NumberBytes, Stop>
    requires { length xs.now ≤ 8 }
    ensures { rule.shown_number result ≡ rule.merged_states xs.now ys.now }
{
    let mut all = NumberBytes::new();
    let count = xs.len().min(ys.len());
    for i in 0..count {
        let byte = merged_byte(xs[i], ys[i])?;
        all.push(byte);
    }
    Ok(all)
}

// The bytes where the mask has 255, and 0 where it doesn't.
fn masked(mask: u64, xs: &[ByteState]) -> NumberBytes
    requires { length xs.now ≤ 8 }
    ensures { result.items ≡ rule.masked_states mask 0 xs.now }
{
    let mut all = NumberBytes::new();
    for (k, x) in xs.iter().enumerate() {
        all.push(masked_byte(byte_at(mask, k as u32), *x));
    }
    all
}

fn masked_byte(mask: u8, x: ByteState) -> ByteState
    ensures { result ≡ (if nat_eq mask 255 then x else states.Zero) }
{
    if mask == 255 { x } else { ByteState::Zero }
}

// A byte, or 0 past the end.
fn byte_or_zero(xs: &[ByteState], i: usize) -> ByteState
    ensures { result ≡ slice_index_or xs.now i states.Zero }
{
    if i < xs.len() { xs[i] } else { ByteState::Zero }
}

fn moved_byte(xs: &[ByteState], up: usize, down: usize, i: usize) -> ByteState
    requires i { i < 8 }
    requires down { down < 32 }
    ensures { result ≡ (if nat_lt i up then states.Zero else slice_index_or xs.now (i - up + down) states.Zero) }
{
    if i < up {
        ByteState::Zero
    } else {
        byte_or_zero(xs, i - up + down)
    }
}

/// A number of so many bytes: these bytes, moved up and down by so many, and zeros.
pub(crate) fn moved(xs: &[ByteState], up: usize, down: usize, width: usize) -> NumberBytes
    requires width { width ≤ 8 }
    requires down { down < 32 }
    ensures value { result.items ≡ rule.moved_states up down width xs.now }
    ensures width { array_vec_len result ≡ width }
{
    let mut all = NumberBytes::new();
    for i in 0..width {
        all.push(moved_byte(xs, up, down, i));
    }
    all
}

/// What an operator gives, of operands with these bytes, which are these constants where they are some.
pub(crate) fn operated(
    op: BinOp,
    constants: (Option<i128>, Option<i128>),
    xs: &[ByteState],
    ys: &[ByteState],
) -> Result<NumberBytes, Stop>
    requires left { length xs.now ≤ 8 }
    requires right { length ys.now ≤ 8 }
    ensures { rule.shown_number result ≡ rule.operated_states op constants.0 constants.1 xs.now ys.now }
{
    match op {
        BinOp::Add => merged(xs, ys),
        BinOp::Or => merged(xs, ys),
        BinOp::Xor => merged(xs, ys),
        BinOp::And => {
            if is_mask(constants.1) {
                masked_by(constants.1, xs)
            } else {
                masked_by(constants.0, ys)
            }
        }
        BinOp::Shl => shifted_up(constants.1, xs),
        BinOp::Shr => shifted_down(constants.1, xs),
        BinOp::Sub => Err(Stop::Foreign),
        BinOp::Mul => Err(Stop::Foreign),
        BinOp::Div => Err(Stop::Foreign),
        BinOp::Rem => Err(Stop::Foreign),
    }
}

fn shifted_up(amount: Option<i128>, xs: &[ByteState]) -> Result<NumberBytes, Stop>
    requires { length xs.now ≤ 8 }
    ensures { rule.shown_number result
        ≡ rule.shifted_states (λ n. rule.moved_states n 0 (length xs.now) xs.now) amount }
{
    match amount {
        None => Err(Stop::Foreign),
        Some(v) => Ok(moved(xs, bytes_moved(v), 0, xs.len())),
    }
}

fn shifted_down(amount: Option<i128>, xs: &[ByteState]) -> Result<NumberBytes, Stop>
    requires { length xs.now ≤ 8 }
    ensures { rule.shown_number result
        ≡ rule.shifted_states (λ n. rule.moved_states 0 n (length xs.now) xs.now) amount }
{
    match amount {
        None => Err(Stop::Foreign),
        Some(v) => Ok(moved(xs, 0, bytes_moved(v), xs.len())),
    }
}

fn masked_by(mask: Option<i128>, xs: &[ByteState]) -> Result<NumberBytes, Stop>
    requires { length xs.now ≤ 8 }
    ensures { rule.shown_number result ≡ rule.masked_states_by mask xs.now }
{
    match mask {
        None => Err(Stop::Foreign),
        Some(v) => Ok(masked(bits_of(v), xs)),
    }
}
