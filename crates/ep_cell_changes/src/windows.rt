//! The cells of a list in order that begin in a range of a block, found by binary search.

ghost use Rattle.std.specs.Prelude.{◌≡◌, ◌+◌, ◌-◌, ◌≤◌, length, take, drop, true, false};
ghost use Rattle.std.specs.List.Sorted.{IsPartitionPoint};
ghost use Rattle.ep_cell_changes.specs.Tests.{AreInOrder};
ghost use Rattle.ep_cell_changes.specs.Begins.{begins_before, IsWindow};

use ep_cell_rows::places::end;
use ep_cells::{ByteRange, Cell};
use ep_domain::Num;

fn begins_before<N: Num>(c: &Cell<N>, block: u32, offset: u64) -> bool
    ensures { result ≡ begins_before block offset c.now }
{
    c.block < block || c.block == block && u64::from(c.offset) < offset
}

// How many cells begin before an offset of a block.
fn count_before<N: Num>(cells: &[Cell<N>], block: u32, offset: u64) -> usize
    requires { AreInOrder cells.now }
    ensures within { result ≤ length cells.now }
    ensures point { IsPartitionPoint (λ c. begins_before block offset c ≡ true)
        (λ c. begins_before block offset c ≡ false) cells.now result }
{
    cells.partition_point(|c| begins_before(c, block, offset))
}

fn from<N: Num>(cells: &[Cell<N>], n: usize) -> &[Cell<N>]
    requires { n ≤ length cells.now }
    ensures { result.now ≡ drop n cells.now }
{
    cells.split_at(n).1
}

fn first<N: Num>(cells: &[Cell<N>], n: usize) -> &[Cell<N>]
    requires { n ≤ length cells.now }
    ensures { result.now ≡ take n cells.now }
{
    cells.split_at(n).0
}

/// The cells that begin from an offset of a block on, and before another.
pub fn window<N: Num>(cells: &[Cell<N>], block: u32, low: u64, high: u64) -> &[Cell<N>]
    requires { AreInOrder cells.now }
    ensures { IsWindow block low high cells.now result.now }
{
    let rest = from(cells, count_before(cells, block, low));
    first(rest, count_before(rest, block, high))
}

/// The cells that may touch a place: they begin in it, or less than a scalar's greatest size before it.
pub fn about<'a, N: Num>(cells: &'a [Cell<N>], p: &ByteRange) -> &'a [Cell<N>]
    requires { AreInOrder cells.now }
    ensures { IsWindow p.now.block (p.now.offset - 7) (p.now.offset + p.now.bytes) cells.now result.now }
{
    window(
        cells,
        p.block,
        u64::from(p.offset.saturating_sub(7)),
        end(p),
    )
}

/// The cells that begin at an offset.
pub fn at<N: Num>(cells: &[Cell<N>], block: u32, offset: u32) -> &[Cell<N>]
    requires { AreInOrder cells.now }
    ensures { IsWindow block offset (offset + 1) cells.now result.now }
{
    window(cells, block, u64::from(offset), u64::from(offset) + 1)
}
