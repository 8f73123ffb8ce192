//! What the types of tame programs have that offsets of their places and pointers need. Laws alone.
#![tactic(auto)]

ghost use Rattle.ep_tame_types.specs.Laws.{MembersFitIn, ArraysAreEven, UnitsOfNoHolder, ChainsFill, ScalarsStandOnce};

/// States what members, arrays, units of sums and chains of elements are, and does nothing.
pub fn type_laws()
    ensures members { MembersFitIn }
    ensures arrays { ArraysAreEven }
    ensures units { UnitsOfNoHolder }
    ensures chains { ChainsFill }
{}

/// States that at one offset of an object stands at most one scalar, and does nothing.
pub fn scalar_laws()
    ensures { ScalarsStandOnce }
{}
