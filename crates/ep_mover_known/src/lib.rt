//! What is known of a program that only moves bytes, whatever its inputs are: laws alone.
#![tactic(auto)]

ghost use Rattle.ep_mover_known.specs.Laws.{InputsTell};

use ep_domain::Num;

/// Does nothing: its contract is that what is known of expressions whatever the inputs are, tells their bytes: of a
/// single number they are fixed, and of numbers that surely are the same on both machines they are the same, over
/// every domain.
pub fn mover_known<N: Num>()
    ensures { InputsTell N.ops }
{}
