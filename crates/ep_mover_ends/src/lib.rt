//! The end of main of a program that only moves bytes: laws alone.
#![tactic(auto)]

ghost use Rattle.ep_mover_ends.specs.Laws.{EndsAreQuiet};

use ep_domain::Num;

/// Does nothing: its contract is that the end of main has no fault where main's result is zero bytes on both machines,
/// over every domain.
pub fn mover_ends<N: Num>()
    ensures { EndsAreQuiet N.ops }
{}
