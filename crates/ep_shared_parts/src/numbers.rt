//! The numbers of cells.

ghost use Rattle.std.specs.Prelude.{◌≡◌};
ghost use Rattle.ep_shared_parts.specs.Mentions.{number_at};

use crate::parts::Numbered;
use ep_cell_rows::cell::copy_cell;
use ep_cells::Cell;
use ep_domain::Num;
use ep_int::Memory;

/// The number of an offset of a block.
pub fn number_at(block: u32, offset: u32) -> u64
    ensures { result ≡ number_at block offset }
{
    4_294_967_296 * u64::from(block) + u64::from(offset)
}

impl<N: Num> Numbered for Cell<N> {
    ghost use Rattle.ep_shared_parts.specs.Mentions.{number_of};

    ghost number = { number_of };

    fn number(&self) -> u128 {
        u128::from(number_at(self.block, self.offset))
    }

    fn copied(&self) -> Result<Self, Memory> {
        copy_cell(self)
    }
}
