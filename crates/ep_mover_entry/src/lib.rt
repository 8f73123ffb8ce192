//! What is known of a program that only moves bytes, where main begins: laws alone.
#![tactic(auto)]

ghost use Rattle.ep_mover_entry.specs.Laws.{EntriesAreMoved};

use ep_domain::Num;

/// Does nothing: its contract is that each byte that a first value sets is said where main begins, over every domain.
pub fn mover_entry<N: Num>()
    ensures { EntriesAreMoved N.ops }
{}
