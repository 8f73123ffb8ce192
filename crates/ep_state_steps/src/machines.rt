//! The machines of a state.

ghost use Rattle.std.specs.Prelude.{◌≡◌};
ghost use Rattle.ep_state_steps.specs.Ones.{machines_of};

use ep_domain::Num;
use ep_states::State;
use ep_synthesis::Machines;

/// The byte orders and the data model that the state is of.
pub fn machines_of<N: Num>(state: &State<N>) -> Machines
    ensures { result ≡ machines_of state.now }
{
    Machines {
        orders: state.orders(),
        model: state.model(),
    }
}
