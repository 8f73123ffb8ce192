//! What the analysis knows of a program that only moves bytes, where an input of one byte is taken: laws alone.
#![tactic(auto)]

ghost use Rattle.ep_mover_input_bytes.specs.Laws.{InputBytesKeep};

use ep_domain::Num;

/// Does nothing: its contract is that an input of one byte goes to the next byte of a block on both machines of a
/// mover, whatever cells have that byte, and each byte is said again then, over every domain.
pub fn mover_input_bytes<N: Num>()
    ensures { InputBytesKeep N.ops }
{}
