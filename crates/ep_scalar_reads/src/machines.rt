//! Two machines.

use ep_int::{Model, Order};

/// The byte orders of the left and of the right machine, and the data model of both.
#[derive(Clone, Copy, Debug)]
pub struct Machines {
    pub orders: (Order, Order),
    pub model: Model,
}
