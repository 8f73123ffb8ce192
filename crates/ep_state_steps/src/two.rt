//! Two states.

use ep_states::State;

/// Two states.
#[derive(Drop)]
pub struct States<N> {
    pub left: State<N>,
    pub right: State<N>,
}
