//! Leaves in step with the bytes of their type.

ghost use Rattle.std.specs.Prelude.{◌≡◌, ◌+◌, drop};
ghost use Rattle.ep_transfer_clears.specs.Walk.{first_at, IsAt};

use ep_int::{Model, Scalar};
use ep_layout::Leaf;

/// How many leaves have begun, and where the last of them ends.
#[derive(Clone, Copy)]
pub(crate) struct Walk {
    pub begun: usize,
    pub end: u32,
}

/// The leaf that begins at an offset.
pub(crate) fn first_at(leaves: &[Leaf], begun: usize, at: u32) -> Option<Scalar>
    ensures { result ≡ first_at (drop begun leaves.now) at }
{
    if begun < leaves.len() && leaves[begun].offset == at {
        return Some(leaves[begun].what);
    }
    None
}

/// The same behind the byte at an offset.
pub(crate) fn moved_on(
    model: Model,
    bytes: u32,
    leaves: &[Leaf],
    at: u32,
    first: Option<Scalar>,
    walk: Walk,
) -> Walk
    requires stands { IsAt model bytes leaves.now at walk.begun walk.end }
    requires first { first ≡ first_at (drop walk.begun leaves.now) at }
    ensures { IsAt model bytes leaves.now (at + 1) result.begun result.end }
{
    leaves.len();
    match first {
        None => walk,
        Some(what) => Walk {
            begun: walk.begun + 1,
            end: at + ep_int::size(model, what),
        },
    }
}
