//! A program on a machine.

use ep_core::program::CoreProgram;
use ep_int::Order;

/// A program, and the byte order of the machine that runs it.
#[derive(Clone, Copy, Drop)]
pub struct Setting<'p> {
    pub order: Order,
    pub program: &'p CoreProgram,
}
