//! The value that some bytes have.

ghost use Rattle.std.specs.Prelude.{◌≡◌, ◌↔◌, ℕ, ◌<◌, ◌≤◌, true, length, map, slice_index, IfOk, IsSome, IfSome};
ghost use Rattle.std.specs.List.{list_any, list_all};
ghost use Rattle.ep_int.specs.Types.{size_of};
ghost use Rattle.ep_int.specs.Memory.{are_parts, is_number, is_undefined, is_zero, number_in, pointer_in};
ghost use Rattle.ep_int.specs.Memory.{value_of_bytes};
ghost use Rattle.ep_bytes.specs.View.{byte_in, read_as, Fits};
ghost use Rattle.ep_bytes.specs.Cells.{cell_at};

use crate::numbers::decode;
use crate::types::{Byte, Datum};
use ep_alarms::AlarmKind;
use ep_int::{Model, Order, Scalar};

/// The value of a scalar that has these bytes, all of them defined.
pub(crate) fn value(
    order: Order,
    model: Model,
    what: Scalar,
    bytes: &[Byte],
) -> Result<Datum, AlarmKind>
    requires { length bytes.now ≡ size_of model what }
    ensures value { result ≡ read_as (value_of_bytes order what (map byte_in bytes.now)) }
    ensures fits { IfOk result (λ d. Fits what d) }
{
    match what {
        Scalar::Int(t) => match numbers(bytes) {
            None => Err(AlarmKind::U10),
            Some(all) => Ok(Datum::Int(decode(order, t, &all[..bytes.len()]))),
        },
        Scalar::Pointer => {
            if is_zero(bytes) {
                Ok(Datum::Null)
            } else {
                pointer(bytes)
            }
        }
    }
}

/// Whether a byte is undefined.
pub(crate) fn is_any_undefined(bytes: &[Byte]) -> bool
    ensures { result ≡ list_any is_undefined (map byte_in bytes.now) }
{
    for byte in bytes {
        match byte {
            Byte::Undefined => return true,
            Byte::Number(_) | Byte::Fragment(_, _, _) => {}
        }
    }
    false
}

// The numbers of at most eight bytes, if each of them has one.
fn numbers(bytes: &[Byte]) -> Option<[u8; 8]>
    requires { length bytes.now ≤ 8 }
    ensures none { IsSome result ↔ (list_all is_number (map byte_in bytes.now) ≡ true) }
    ensures some { IfSome result (λ all. (p : ℕ) → p < length bytes.now
        → slice_index all p ≡ number_in (byte_in (cell_at bytes.now p))) }
{
    let mut all = [0; 8];
    for (k, byte) in bytes.iter().enumerate() {
        match byte {
            Byte::Number(v) => all[k] = *v,
            Byte::Undefined | Byte::Fragment(_, _, _) => return None,
        }
    }
    Some(all)
}

fn is_zero(bytes: &[Byte]) -> bool
    ensures { result ≡ list_all is_zero (map byte_in bytes.now) }
{
    for byte in bytes {
        match byte {
            Byte::Number(v) => {
                if *v != 0 {
                    return false;
                }
            }
            Byte::Undefined | Byte::Fragment(_, _, _) => return false,
        }
    }
    true
}

// The pointer whose parts the bytes are, in order.
fn pointer(bytes: &[Byte]) -> Result<Datum, AlarmKind>
    requires { 0 < length bytes.now }
    ensures value { result ≡ read_as (pointer_in (map byte_in bytes.now)) }
    ensures fits { IfOk result (λ d. Fits Scalar.Pointer d) }
{
    match bytes[0] {
        Byte::Undefined | Byte::Number(_) => Err(AlarmKind::U10),
        Byte::Fragment(block, offset, _) => {
            if are_parts(block, offset, bytes) {
                Ok(Datum::Pointer(block, offset))
            } else {
                Err(AlarmKind::U10)
            }
        }
    }
}

fn are_parts(block: u32, offset: u32, bytes: &[Byte]) -> bool
    ensures { result ≡ are_parts block offset 0 (map byte_in bytes.now) }
{
    for (k, byte) in bytes.iter().enumerate() {
        match byte {
            Byte::Fragment(b, o, part) => {
                if *b != block || *o != offset || *part as usize != k {
                    return false;
                }
            }
            Byte::Undefined | Byte::Number(_) => return false,
        }
    }
    true
}
