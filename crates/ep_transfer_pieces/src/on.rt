//! One of both sides.

ghost use Rattle.std.specs.Prelude.{◌≡◌};
ghost use Rattle.ep_evaluation.specs.Given.{alone, cells_of};
ghost use Rattle.ep_transfers.specs.Places.{at_side};
ghost use Rattle.ep_transfer_places.specs.Room.{view};
ghost use Rattle.ep_transfer_pieces.specs.Pieces.{side_of};

use ep_bitslice::Side;
use ep_equalities::Mode;
use ep_transfer_places::Places;

/// One of both sides.
#[derive(Clone, Copy)]
pub enum On {
    Left,
    Right,
}

impl On {
    /// Its side of cells.
    pub fn cells(self) -> Side
        ensures { result ≡ cells_of (side_of self) }
    {
        match self {
            On::Left => Side::Left,
            On::Right => Side::Right,
        }
    }

    /// The mode in which it runs alone.
    pub fn mode(self) -> Mode
        ensures { result ≡ alone (side_of self) }
    {
        match self {
            On::Left => Mode::Left,
            On::Right => Mode::Right,
        }
    }

    /// Its places.
    pub fn places(self, places: &Places) -> &[(u32, u32)]
        ensures { result.now ≡ at_side (view places.now) (side_of self) }
    {
        match self {
            On::Left => &places.left,
            On::Right => &places.right,
        }
    }
}
