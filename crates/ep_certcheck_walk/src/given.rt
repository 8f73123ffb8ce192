//! Heads that are given, taken one after the other.

ghost use Rattle.std.specs.Prelude.{◌≡◌, ◌+◌, ℕ, IfSome, List, Some, slice_get};
ghost use Rattle.std.specs.Option.{option_map};
ghost use Rattle.ep_certcheck_laws.specs.Checked.{outside_of};
ghost use Rattle.ep_certcheck_walk.specs.Stops.{Gives, course, nothing_more};
ghost use Rattle.ep_flows.specs.View.{ops_for, plan_of};

use crate::states::CheckedStates;
use crate::stop::Stop;
use ep_flows::setting::Setting;

/// The next head.
pub fn next_head<'h, K>(heads: &'h [K], taken: &mut usize) -> Option<&'h K>
    ensures head { option_map (λ h. h.now) result ≡ slice_get heads.now taken.old }
    ensures taken { IfSome result (λ _. taken.new ≡ taken.old + 1) }
{
    let number = *taken;
    if number < heads.len() {
        *taken = number + 1;
    }
    heads.get(number)
}

/// A state has to be within the head of this number.
pub fn stay_within<K: CheckedStates>(
    c: &Setting<'_>,
    number: usize,
    head: &K,
    state: K,
) -> Result<(), Stop>
    ensures { (line : ℕ) (hs : List K) → slice_get hs number ≡ Some head.now
        → Gives (course K.ops K.first_outside (plan_of c.now) hs)
        (outside_of (ops_for K.ops (plan_of c.now)) K.first_outside number line head.now (Some state))
        nothing_more result }
{
    let copy = head.copied()?;
    let (_, state) = copy.unified(c, state)?;
    if state.leq(c, head) {
        return Ok(());
    }
    let cell = state.first_outside(c, head)?;
    Err(Stop::Outside(number as u64, cell))
}

/// A state that is reached has to be within the head of this number.
pub fn stay_reached<K: CheckedStates>(
    c: &Setting<'_>,
    number: usize,
    head: &K,
    state: Option<K>,
) -> Result<(), Stop>
    ensures { (line : ℕ) (hs : List K) → slice_get hs number ≡ Some head.now
        → Gives (course K.ops K.first_outside (plan_of c.now) hs)
        (outside_of (ops_for K.ops (plan_of c.now)) K.first_outside number line head.now state) nothing_more result }
{
    match state {
        None => Ok(()),
        Some(state) => stay_within(c, number, head, state),
    }
}
