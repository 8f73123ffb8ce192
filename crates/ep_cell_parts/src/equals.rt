//! Whether two states are one.

ghost use Rattle.std.specs.Prelude.{◌≡◌, ◌↔◌, IsTrue};
ghost use Rattle.ep_cell_ranges.specs.Tests.{is_model};
ghost use Rattle.ep_shared_parts.specs.Spread.{all_items};
ghost use Rattle.ep_cell_parts.specs.Orders.{is_order};

use ep_cell_rows::cell::is_equal;
use ep_cells::Cell;
use ep_domain::Num;
use ep_int::{Model, Order};
use ep_shared_parts::parts::Part;
use ep_shared_parts::walks::{At, next};

/// Whether both are one byte order.
pub fn is_order(a: Order, b: Order) -> bool
    ensures { result ≡ is_order a b }
{
    match a {
        Order::Little => match b {
            Order::Little => true,
            Order::Big => false,
            Order::SwappedWords => false,
        },
        Order::Big => match b {
            Order::Little => false,
            Order::Big => true,
            Order::SwappedWords => false,
        },
        Order::SwappedWords => match b {
            Order::Little => false,
            Order::Big => false,
            Order::SwappedWords => true,
        },
    }
}

/// Whether both are one data model.
pub fn is_model(a: Model, b: Model) -> bool
    ensures { result ≡ is_model a b }
{
    match a {
        Model::Ilp32 => match b {
            Model::Ilp32 => true,
            Model::Lp64 => false,
        },
        Model::Lp64 => match b {
            Model::Ilp32 => false,
            Model::Lp64 => true,
        },
    }
}

/// Whether both have the same cells. Takes no memory.
pub fn are_equal<N: Num>(xs: &[Part<Cell<N>>], ys: &[Part<Cell<N>>]) -> bool
    ensures { IsTrue result ↔ (all_items xs.now ≡ all_items ys.now) }
{
    let mut a = At { part: 0, item: 0 };
    let mut b = At { part: 0, item: 0 };
    loop {
        let Some(x) = next(xs, a) else {
            return next(ys, b).is_none();
        };
        let Some(y) = next(ys, b) else {
            return false;
        };
        if !is_equal(x.0, y.0) {
            return false;
        }
        a = x.1;
        b = y.1;
    }
}
