//! What memory holds.

ghost use Rattle.std.specs.Prelude.{◌≡◌};
ghost use Rattle.ep_bytes.specs.StoreView.{memory_in};
ghost use Rattle.ep_machine.specs.Faults.{found_by};
ghost use Rattle.ep_machine.specs.Settings.{IsLaid, loaded_on, size_on};

use crate::fault::{Fault, fault_of};
use crate::setting::Setting;
use ep_bytes::{Datum, Store};
use ep_int::Scalar;

/// How many bytes a block has; one that isn't there has none.
pub fn size_of_block(on: &Setting, block: u32) -> u32
    ensures { result ≡ size_on on.now block }
{
    match on.program.blocks.get(block as usize) {
        None => 0,
        Some(b) => b.size,
    }
}

/// The scalar at an offset of a block.
pub fn load(
    on: &Setting,
    store: &Store,
    what: Scalar,
    block: u32,
    here: u32,
) -> Result<Datum, Fault>
    requires { IsLaid on.now store.now }
    ensures { found_by result ≡ loaded_on on.now (memory_in store.now) what block here }
{
    if block as usize >= on.program.blocks.len() {
        return Err(Fault::Bounds);
    }
    match store.load(on.order, what, block, i64::from(here)) {
        Ok(d) => Ok(d),
        Err(k) => Err(fault_of(k)),
    }
}
