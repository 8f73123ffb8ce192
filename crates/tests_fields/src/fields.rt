//! Bit-fields in a row, a read and a write.

use ep_bitfield::{Field, get, pack, set};
use ep_core::tree::{Dest, Expr, Place};
use ep_int::{IntType, Scalar};
use std::test::Fail;

const BITS: Field = Field {
    t: IntType::U16,
    used: 3,
    width: 9,
};

#[test]
fn fields_share_units(rt: HostRuntime) -> Result<(), Fail> {
    let entries = [
        (IntType::U8, 3),
        (IntType::U8, 5),
        (IntType::U8, 1),
        (IntType::U16, 9),
        (IntType::U16, 0),
        (IntType::U16, 3),
    ];
    let fields = pack(rt.alloc(), &entries).ok().ok_or("memory")?;
    let mut units = Vec::new(rt.alloc());
    for (unit, _) in &fields {
        units.push(*unit)?;
    }
    assert_eq!(rt; units.as_slice(), [0, 0, 1, 2, 2, 3].as_slice());
    Ok(())
}

#[test]
fn statements_are_made(rt: HostRuntime) -> Result<(), Fail> {
    let to = Dest {
        what: Scalar::Int(IntType::U32),
        cast: false,
        place: Place::Block(1),
    };
    let read = get(rt.alloc(), 7, Place::Block(0), BITS, to)
        .ok()
        .ok_or("memory")?;
    assert_eq!(rt; read.line, 7);
    let value = Expr::Const(IntType::U32, 5);
    let written = set(rt.alloc(), 8, Place::Block(0), BITS, value)
        .ok()
        .ok_or("memory")?;
    assert_eq!(rt; written.line, 8);
    Ok(())
}
