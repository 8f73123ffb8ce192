//! What the analysis knows of a program that only moves bytes, where a number is written: laws alone.
#![tactic(auto)]

ghost use Rattle.ep_mover_writes.specs.Laws.{OtherInputsDontCount, WritesKeepBytes};

use ep_domain::Num;

/// Does nothing: its contract is that each byte that the text tells is said again where a number is written, on one
/// machine or on both, over every domain; and that nothing is said of inputs that weren't taken.
pub fn mover_writes<N: Num>()
    ensures writes { WritesKeepBytes N.ops }
    ensures others { OtherInputsDontCount N.ops }
{}
