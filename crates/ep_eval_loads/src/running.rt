//! The side that runs alone.

ghost use Rattle.std.specs.Prelude.{◌≡◌};
ghost use Rattle.ep_evaluation.specs.Given.{alone, cells_of, on};
ghost use Rattle.ep_eval_loads.specs.Running.{side_of};

use ep_bitslice::Side;
use ep_equalities::{Mode, PairValue, SideValue};

/// The side of the two machines that runs alone.
#[derive(Clone, Copy, Debug, PartialEq, Eq)]
pub enum Running {
    Left,
    Right,
}

impl Running {
    /// That this side runs alone.
    pub fn mode(self) -> Mode
        ensures { result ≡ alone (side_of self) }
    {
        match self {
            Running::Left => Mode::Left,
            Running::Right => Mode::Right,
        }
    }

    /// The side of cells that it reads, beside Shared ones.
    pub fn cells(self) -> Side
        ensures { result ≡ cells_of (side_of self) }
    {
        match self {
            Running::Left => Side::Left,
            Running::Right => Side::Right,
        }
    }

    /// What it has of a pair.
    pub fn of<N>(self, x: &PairValue<N>) -> &SideValue<N>
        ensures { result.now ≡ on x.now (side_of self) }
    {
        match self {
            Running::Left => &x.left,
            Running::Right => &x.right,
        }
    }
}
