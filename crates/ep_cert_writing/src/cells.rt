//! Writing cells.

ghost use Rattle.std.specs.Prelude.{◌≡◌, ◌++◌, map, OnOk};
ghost use Rattle.std.specs.List.{flat_map};
ghost use Rattle.ep_cells.specs.Cells.{scalar_number};
ghost use Rattle.ep_cert_cells.specs.Bytes.{value_bytes, cell_bytes};

use crate::bytes::{put_byte, put_low, put_number};
use crate::forms::{put_form, side_byte, type_byte};
use crate::pointers::put_pointer;
use ep_cells::{Cell, Value};
use ep_cert_cells::Numbers;
use ep_int::{Memory, Scalar};
use ep_pointers::PtrValue;

fn scalar_byte(what: Scalar) -> u8
    ensures { result ≡ scalar_number what }
{
    match what {
        Scalar::Int(t) => type_byte(t),
        Scalar::Pointer => 8,
    }
}

fn put_num(out: &mut Vec<u8>, number: &Numbers) -> Result<(), Memory>
    ensures { OnOk result (out.new.items ≡ out.old.items ++ value_bytes (Some (Value.Num number.now))) }
{
    put_byte(out, 1)?;
    put_number(out, number)
}

fn put_ptr(out: &mut Vec<u8>, pointer: &PtrValue<Numbers>) -> Result<(), Memory>
    ensures { OnOk result (out.new.items ≡ out.old.items ++ value_bytes (Some (Value.Ptr pointer.now))) }
{
    put_byte(out, 2)?;
    put_pointer(out, pointer)
}

fn put_some_value(out: &mut Vec<u8>, value: &Value<Numbers>) -> Result<(), Memory>
    ensures { OnOk result (out.new.items ≡ out.old.items ++ value_bytes (Some value.now)) }
{
    match value {
        Value::Num(number) => put_num(out, number),
        Value::Ptr(pointer) => put_ptr(out, pointer),
    }
}

fn put_value(out: &mut Vec<u8>, value: &Option<Value<Numbers>>) -> Result<(), Memory>
    ensures { OnOk result (out.new.items ≡ out.old.items ++ value_bytes value.now) }
{
    match value {
        None => put_byte(out, 0),
        Some(value) => put_some_value(out, value),
    }
}

fn put_cell(out: &mut Vec<u8>, cell: &Cell<Numbers>) -> Result<(), Memory>
    ensures { OnOk result (out.new.items ≡ out.old.items ++ cell_bytes cell.now) }
{
    put_byte(out, side_byte(cell.side))?;
    put_low(out, 4, u128::from(cell.block))?;
    put_low(out, 4, u128::from(cell.offset))?;
    put_byte(out, scalar_byte(cell.what))?;
    put_byte(out, u8::from(cell.maybe))?;
    put_value(out, &cell.value)?;
    put_form(out, &cell.form)
}

/// Cells, one behind the other.
pub fn put_cells(out: &mut Vec<u8>, cells: &[&Cell<Numbers>]) -> Result<(), Memory>
    ensures { OnOk result (out.new.items ≡ out.old.items ++ flat_map cell_bytes (map (λ r. r.now) cells.now)) }
{
    for c in cells {
        put_cell(out, c)?;
    }
    Ok(())
}
