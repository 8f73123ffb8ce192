//! A bit-field in its unit.

ghost use Rattle.std.specs.Prelude.{◌≡◌};
ghost use Rattle.ep_bitfield.specs.Bits as rule;

use ep_int::{IntType, bits};

/// So many bits of a unit of the type, behind those that fields before it use.
#[derive(Clone, Copy, Debug)]
pub struct Field {
    pub t: IntType,
    pub used: u32,
    pub width: u32,
}

/// Whether units may have the type.
pub fn is_unit_type(t: IntType) -> bool
    ensures { result ≡ rule.is_unit_type t }
{
    match t {
        IntType::U8 | IntType::U16 | IntType::U32 => true,
        IntType::I8 | IntType::I16 | IntType::I32 | IntType::I64 | IntType::U64 => false,
    }
}

/// Whether it has a bit, and its unit has room for it.
pub fn is_field(f: Field) -> bool
    ensures { result ≡ rule.is_field f }
{
    let end = u64::from(f.used) + u64::from(f.width);
    is_unit_type(f.t) & ((1 <= f.width) & (end <= u64::from(bits(f.t))))
}
