//! Why something isn't read.

ghost use Rattle.std.specs.Prelude.{◌≡◌};
ghost use Rattle.ep_cert_cells.specs.declared.unread.Unread.TheVariants.{Memory as wanting};

use ep_int::Memory;
use std::alloc::{AllocError, AllocFailed};

/// Why something isn't read.
#[derive(Clone, Copy, Debug, PartialEq, Eq)]
pub enum Unread {
    /// Want of memory.
    Memory,
    /// The bytes don't spell it.
    Misspelled,
}

impl From<Memory> for Unread {
    ghost from_gives = { λ _ e. e ≡ wanting };

    fn from(_e: Memory) -> Unread {
        Unread::Memory
    }
}

impl From<AllocError> for Unread {
    ghost from_gives = { λ _ e. e ≡ wanting };

    fn from(_e: AllocError) -> Unread {
        Unread::Memory
    }
}

impl<T: Drop> From<AllocFailed<T>> for Unread {
    ghost from_gives = { λ _ e. e ≡ wanting };

    fn from(_e: AllocFailed<T>) -> Unread {
        Unread::Memory
    }
}
