//! What the analysis knows of a program that only moves bytes, where a value goes to a place: laws alone.
#![tactic(auto)]

ghost use Rattle.ep_mover_stores.specs.Laws.{StoresKeepBytes, TakesKeepBytes};

use ep_domain::Num;

/// Does nothing: its contract is that a number with bytes that the text tells, or an input, goes to its place without
/// a fault, and each byte is said again then, over every domain.
pub fn mover_stores<N: Num>()
    ensures stores { StoresKeepBytes N.ops }
    ensures takes { TakesKeepBytes N.ops }
{}
