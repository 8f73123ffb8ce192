//! Reading what stands before the heads.

ghost use Rattle.std.specs.Prelude.{◌≡◌};
ghost use Rattle.std.specs.Option.{option_map};
ghost use Rattle.ep_cert.specs.Certificate.{order_number};
ghost use Rattle.ep_cert.specs.Reading.{order_at, model_at, is_opening, opening_from, opening_at};

use ep_cert_cells::{byte, eight, four};
use ep_int::{Model, Order};

// The text `ENDCERT1`, the lowest byte first.
const MARK: u64 = 3554556463336934981;

pub(crate) const GREATEST_UNROLL: u32 = 4096;

/// What stands before the heads, and how many heads there are.
#[derive(Clone, Copy, Debug)]
pub struct Opening {
    pub orders: (Order, Order),
    pub model: Model,
    pub unroll: u32,
    pub count: u64,
}

fn order_at(bytes: &[u8]) -> Option<(Order, &[u8])>
    ensures { option_map (λ p. (p.0, p.1.now)) result ≡ order_at bytes.now }
{
    let (byte, rest) = byte(bytes)?;
    match byte {
        0 => Some((Order::Little, rest)),
        1 => Some((Order::Big, rest)),
        2 => Some((Order::SwappedWords, rest)),
        _ => None,
    }
}

fn model_at(bytes: &[u8]) -> Option<(Model, &[u8])>
    ensures { option_map (λ p. (p.0, p.1.now)) result ≡ model_at bytes.now }
{
    let (byte, rest) = byte(bytes)?;
    match byte {
        0 => Some((Model::Ilp32, rest)),
        1 => Some((Model::Lp64, rest)),
        _ => None,
    }
}

pub(crate) fn order_byte(order: Order) -> u8
    ensures { result ≡ order_number order }
{
    match order {
        Order::Little => 0,
        Order::Big => 1,
        Order::SwappedWords => 2,
    }
}

fn is_opening(mark: u64, orders: (Order, Order), unroll: u32) -> bool
    ensures { result ≡ is_opening mark orders.0 orders.1 unroll }
{
    (mark == MARK) & ((order_byte(orders.0) != order_byte(orders.1)) & (unroll <= GREATEST_UNROLL))
}

fn opening_of(mark: u64, opening: Opening) -> Option<Opening>
    ensures { result ≡ opening_from (
      mark,
      (
        opening.orders.0,
        (
          opening.orders.1,
          (
            opening.model,
            (opening.unroll, opening.count),
          ),
        ),
      ),
    ) }
{
    if is_opening(mark, opening.orders, opening.unroll) {
        Some(opening)
    } else {
        None
    }
}

/// The text, the orders, the model, the unroll number and the count of heads.
#[tactic(auto, unfolding(crate::specs::Reading::opening_at))]
pub(crate) fn opening_at(bytes: &[u8]) -> Option<(Opening, &[u8])>
    ensures { option_map (λ p. (p.0, p.1.now)) result ≡ opening_at bytes.now }
{
    let (mark, rest) = eight(bytes)?;
    let (left, rest) = order_at(rest)?;
    let (right, rest) = order_at(rest)?;
    let (model, rest) = model_at(rest)?;
    let (unroll, rest) = four(rest)?;
    let (count, rest) = eight(rest)?;
    let read = Opening {
        orders: (left, right),
        model,
        unroll,
        count,
    };
    let opening = opening_of(mark, read)?;
    Some((opening, rest))
}
