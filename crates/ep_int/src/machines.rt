//! What machines differ in: the order of bytes, and the size of pointers.

ghost use Rattle.std.specs.Prelude.{◌≡◌, ◌<◌, ◌≤◌, IsTrue};
ghost use Rattle.ep_int.specs.Types as types;
ghost use Rattle.ep_int.specs.Encoding as encoding;

use crate::numbers::bytes;
use crate::{Model, Order, Scalar};

/// The place at which a machine keeps byte `k` of a number, counted from the byte of bits 0 to 7, among its `bytes`
/// bytes.
pub fn place(o: Order, bytes: u32, k: u32) -> u32
    requires width { IsTrue (encoding.is_width bytes) }
    requires below { k < bytes }
    ensures value { result ≡ encoding.place o bytes k }
    ensures inside { result < bytes }
    ensures back { encoding.place o bytes result ≡ k }
{
    match o {
        Order::Little => k,
        Order::Big => bytes - 1 - k,
        Order::SwappedWords => {
            if bytes == 1 {
                0
            } else {
                bytes - 2 - 2 * (k / 2) + k % 2
            }
        }
    }
}

/// The number of bytes of a pointer.
pub fn pointer_bytes(m: Model) -> u32
    ensures value { result ≡ types.pointer_bytes m }
    ensures within { result ≤ 8 }
{
    match m {
        Model::Ilp32 => 4,
        Model::Lp64 => 8,
    }
}

/// The number of bytes of a scalar. Its address is a multiple of it.
pub fn size(m: Model, what: Scalar) -> u32
    ensures value { result ≡ types.size_of m what }
    ensures within { result ≤ 8 }
{
    match what {
        Scalar::Int(t) => bytes(t),
        Scalar::Pointer => pointer_bytes(m),
    }
}
