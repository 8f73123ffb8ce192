//! The laws of pointers.

ghost use Rattle.ep_pointers.specs.Laws.{PointerLaws};

use ep_domain::Num;

/// Does nothing: its contract is that the definitions of all calls on pointers keep their laws, over every domain.
pub fn laws<N: Num>()
    ensures { PointerLaws N.ops }
{}
