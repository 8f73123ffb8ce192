//! Writing what pointers may be.

ghost use Rattle.std.specs.Prelude.{◌≡◌, ◌++◌, OnOk};
ghost use Rattle.std.specs.List.{flat_map};
ghost use Rattle.ep_cert_cells.specs.Bytes.{target_bytes, pointer_bytes};

use crate::bytes::{put_byte, put_low, put_number};
use ep_cert_cells::Numbers;
use ep_int::Memory;
use ep_pointers::PtrValue;

fn put_target(out: &mut Vec<u8>, target: &(u32, Numbers)) -> Result<(), Memory>
    ensures { OnOk result (out.new.items ≡ out.old.items ++ target_bytes target.now) }
{
    put_low(out, 4, u128::from(target.0))?;
    put_number(out, &target.1)
}

fn put_targets(out: &mut Vec<u8>, targets: &[(u32, Numbers)]) -> Result<(), Memory>
    ensures { OnOk result (out.new.items ≡ out.old.items ++ flat_map target_bytes targets.now) }
{
    for t in targets {
        put_target(out, t)?;
    }
    Ok(())
}

/// Whether it may be null, and its targets.
pub(crate) fn put_pointer(out: &mut Vec<u8>, pointer: &PtrValue<Numbers>) -> Result<(), Memory>
    ensures { OnOk result (out.new.items ≡ out.old.items ++ pointer_bytes pointer.now) }
{
    put_byte(out, u8::from(pointer.may_be_null()))?;
    let targets = pointer.targets();
    put_low(out, 4, targets.len() as u128)?;
    put_targets(out, targets)
}
