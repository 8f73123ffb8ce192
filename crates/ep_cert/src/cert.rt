//! What a certificate says.

use ep_cert_cells::Numbers;
use ep_int::{Model, Order};
use ep_states::State;

/// What is known at the heads of loops, by which a source can be checked.
#[derive(Drop)]
pub struct Cert {
    /// The byte orders of the left and of the right machine.
    pub orders: (Order, Order),
    pub model: Model,
    /// How many turns of a loop are made one by one.
    pub unroll: u32,
    /// What is known at the heads of loops, in the order in which a pass comes to them.
    pub heads: Vec<State<Numbers>>,
    pub source: Vec<u8>,
}
