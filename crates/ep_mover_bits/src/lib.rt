//! Forms of numbers whose bytes are known by the text of a program that only moves bytes. Laws alone.
#![tactic(auto)]

ghost use Rattle.ep_mover_bits.specs.Laws.{Inputs, FormsFollow, ReadsFollow};

use ep_domain::Num;

/// Does nothing: its contract is that a constant and an input have the bytes that they have by the text, that each
/// operator of movers, each conversion and each read goes from the bytes of forms to the bytes of a form, over every
/// domain, and that the bytes of a form can be told.
pub fn byte_forms<N: Num>()
    ensures forms { (base : Inputs) → FormsFollow base }
    ensures reads { (base : Inputs) → ReadsFollow N.ops base }
{}
