//! The source that a number to start with and a number of fields stand for.
ghost use Rattle.std.specs.Prelude.{◌≡◌, ◌≤◌, ◌+◌, ◌*◌, ◌++◌, length, IfOk, OnOk};
ghost use Rattle.ep_sample.specs.Sample.{byte_text, field_text, kind_of, next_of, shift_of, source_of};

use ep_int::Memory;
use itoa::Buffer;
use std::alloc::{AllocError, Global};

const HEAD: &[u8] = b"#include <stdint.h>
#include \"ep.h\"
#if __BYTE_ORDER__ == __ORDER_LITTLE_ENDIAN__
uint16_t swap(uint16_t v) { return (uint16_t)((v >> 8) | (v << 8)); }
#else
uint16_t swap(uint16_t v) { return v; }
#endif
int main(void)
{
  uint32_t x, y;
  uint16_t h;
  uint8_t b[1];
";

const TURNED: &[u8] = b"  x = ep_in_u32();
  y = (x >> 8) | (x << 24);
  ep_out_u32(y);
";

const SWAPPED: &[u8] = b"  ep_read(&h, 2);
  h = swap(h);
  ep_out_u16(h);
";

/// The source that stands for a number to start with and a number of fields, each of which is three lines. Costs in
/// proportion to the text.
pub fn sample_source(alloc: Global, start: u32, fields: u32) -> Result<Vec<u8>, Memory>
    ensures short { IfOk result (λ v. length v.items ≤ 66 * fields + 283) }
    ensures text { IfOk result (λ v. v.items ≡ source_of start fields) }
{
    text_of(alloc, start, fields).map_err(|_| Memory)
}

fn text_of(alloc: Global, start: u32, fields: u32) -> Result<Vec<u8>, AllocError>
    ensures { IfOk result (λ v. v.items ≡ source_of start fields) }
{
    let mut text = Vec::from_slice(alloc, HEAD)?;
    let mut seed = start;
    for _ in 0..fields {
        seed = next_seed(seed);
        push_field(&mut text, seed)?;
    }
    text.extend_from_slice(b"  return 0;\n}\n")?;
    Ok(text)
}

fn next_seed(seed: u32) -> u32
    ensures { result ≡ next_of seed }
{
    ((seed as u64 * 1_103_515_245 + 12_345) % 2_147_483_648) as u32
}

fn push_field(text: &mut Vec<u8>, seed: u32) -> Result<(), AllocError>
    ensures { OnOk result (text.new.items ≡ text.old.items ++ field_text seed) }
{
    let kind = seed / 65_536 % 3;
    if kind == 0 {
        return text.extend_from_slice(TURNED);
    }
    if kind == 1 {
        return text.extend_from_slice(SWAPPED);
    }
    push_byte(text, 8 * (seed / 196_608 % 4))
}

fn push_byte(text: &mut Vec<u8>, shift: u32) -> Result<(), AllocError>
    ensures { OnOk result (text.new.items ≡ text.old.items ++ byte_text shift) }
{
    let mut number = Buffer::new();
    text.extend_from_slice(b"  x = ep_in_u32();\n  b[0] = (uint8_t)(x >> ")?;
    text.extend_from_slice(number.format(shift).as_bytes())?;
    text.extend_from_slice(b");\n  ep_write(b, 1);\n")
}
