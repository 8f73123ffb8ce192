//! Which bit-fields share a unit.

ghost use Rattle.std.specs.Prelude.{◌≡◌, IsTrue, IfOk};
ghost use Rattle.std.specs.List.{AllByRecursion};
ghost use Rattle.ep_bitfield.specs.Units.{are_entries, behind, packed, placed, shares, AreApart, IsInUnit};

use crate::field::Field;
use ep_int::{IntType, Memory, bits};
use std::alloc::Global;

/// How many units have begun, and the open one: its number, its type, and how many of its bits are used.
#[derive(Clone, Copy, Debug)]
struct Row {
    begun: u32,
    is_open: bool,
    unit: u32,
    t: IntType,
    used: u32,
}

// Whether a field goes on in the open unit.
fn shares_unit(row: Row, t: IntType, width: u32) -> bool
    ensures { result ≡ shares row (t, width) }
{
    row.is_open
        && (bits(row.t) == bits(t) && u64::from(row.used) + u64::from(width) <= u64::from(bits(t)))
}

// The unit's number and the field of an entry.
fn field_of(row: Row, t: IntType, width: u32) -> (u32, Field)
    ensures { result ≡ placed row (t, width) }
{
    if width == 0 {
        let unit = if row.is_open { row.unit } else { 0 };
        return (unit, Field { t, used: 0, width });
    }
    if shares_unit(row, t, width) {
        return (
            row.unit,
            Field {
                t,
                used: row.used,
                width,
            },
        );
    }
    (row.begun, Field { t, used: 0, width })
}

// The units behind an entry.
fn next_row(row: Row, t: IntType, width: u32) -> Result<Row, Memory>
    ensures { IfOk result (λ r. r ≡ behind row (t, width)) }
{
    if width == 0 {
        return Ok(Row {
            is_open: false,
            ..row
        });
    }
    if shares_unit(row, t, width) {
        return Ok(Row {
            used: row.used + width,
            ..row
        });
    }
    let begun = row.begun.checked_add(1).ok_or(Memory)?;
    Ok(Row {
        begun,
        is_open: true,
        unit: row.begun,
        t,
        used: width,
    })
}

/// The number of the unit of each entry of a row of bit-fields, from 0 on, and its field. An entry is a type and a
/// width; one of width 0 ends the unit whose number it has. Memory is also said to be wanting where no number is left
/// for a unit.
pub fn pack(alloc: Global, list: &[(IntType, u32)]) -> Result<Vec<(u32, Field)>, Memory>
    requires { IsTrue (are_entries list.now) }
    ensures is { IfOk result (λ fields. fields.items ≡ packed list.now) }
    ensures inside { IfOk result (λ fields. AllByRecursion IsInUnit fields.items) }
    ensures apart { IfOk result (λ fields. AreApart fields.items) }
{
    let mut fields = Vec::with_capacity(alloc, list.len()).map_err(|_| Memory)?;
    let mut row = Row {
        begun: 0,
        is_open: false,
        unit: 0,
        t: IntType::U8,
        used: 0,
    };
    for i in 0..list.len() {
        let (t, width) = list[i];
        fields.push(field_of(row, t, width)).map_err(|_| Memory)?;
        row = next_row(row, t, width)?;
    }
    Ok(fields)
}
