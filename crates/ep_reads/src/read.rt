//! What is read of a scalar.

use ep_bitslice::Form;
use ep_cells::Value;

/// What is known of a scalar that is read.
#[derive(Drop)]
pub struct ReadValue<N> {
    /// None where nothing can be read that is a value.
    pub value: Option<Value<N>>,
    /// Whether it may be undefined as well.
    pub maybe: bool,
    /// Whether it may have bytes of a pointer among numbers, or only some of a pointer's.
    pub mixed: bool,
    /// The bits of the number, where they are known.
    pub form: Option<Form>,
}
