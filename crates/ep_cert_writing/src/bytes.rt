//! Writing numbers.

ghost use Rattle.std.specs.Prelude.{◌≡◌, ◌++◌, ◌∷◌, [], OnOk, pos};
ghost use Rattle.ep_cert_cells.specs.Bytes.{low, signed, number_bytes};

use ep_cert_cells::Numbers;
use ep_domain::Num;
use ep_int::Memory;

/// One byte.
pub fn put_byte(out: &mut Vec<u8>, byte: u8) -> Result<(), Memory>
    ensures { OnOk result (out.new.items ≡ out.old.items ++ byte ∷ []) }
{
    out.push(byte).map_err(|_| Memory)
}

/// So many bytes of a number, the lowest first.
pub fn put_low(out: &mut Vec<u8>, count: u32, number: u128) -> Result<(), Memory>
    ensures { OnOk result (out.new.items ≡ out.old.items ++ low count number) }
{
    let mut rest = number;
    for _ in 0..count {
        put_byte(out, (rest % 256) as u8)?;
        rest /= 256;
    }
    Ok(())
}

fn put_signed(out: &mut Vec<u8>, number: i128) -> Result<(), Memory>
    ensures { OnOk result (out.new.items ≡ out.old.items ++ signed number) }
{
    put_low(out, 16, number.cast_unsigned())
}

/// The ends of a range, and the remainder and the modulus of a class.
pub(crate) fn put_number(out: &mut Vec<u8>, number: &Numbers) -> Result<(), Memory>
    ensures { OnOk result (out.new.items ≡ out.old.items ++ number_bytes number.now) }
{
    let range = number.left().range();
    put_signed(out, range.0)?;
    put_signed(out, range.1)?;
    put_signed(out, number.right().remainder())?;
    put_signed(out, number.right().modulus())
}
