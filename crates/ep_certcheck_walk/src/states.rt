//! States that a checker compares with heads.

ghost use Rattle.std.specs.Prelude.{◌≡◌, ℕ, false, IfOk};
ghost use Rattle.ep_flows.specs.View.{ops_for, plan_of};

use ep_flows::setting::Setting;
use ep_flows::states::AbstractStates;
use ep_int::Memory;

/// States of which a checker tells where one is outside another.
pub trait CheckedStates: AbstractStates {
    /// Of two states, the number of the second's first cell that the first fails.
    ghost first_outside: { Self → Self → ℕ };

    /// The number of the other's first cell that this state fails. Only asked where it is outside the other.
    fn first_outside(&self, c: &Setting<'_>, other: &Self) -> Result<u64, Memory>
        requires { (ops_for Self.ops (plan_of c.now)).leq self.now other.now ≡ false }
        ensures { IfOk result (λ n. n ≡ first_outside self.now other.now) };
}
