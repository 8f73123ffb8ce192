//! What the types of a program say of its values.

ghost use Rattle.ep_core.specs.Typed.{ValuesFit, PlacesLie, StatementsFit, BodiesKeep, StatementsKeep, RunsFit};
ghost use Rattle.ep_core.specs.Typed.{MainsFit};

/// States that values are as their types say, and does nothing.
pub fn typing_laws()
    ensures values { ValuesFit }
    ensures places { PlacesLie }
    ensures statements { StatementsFit }
    ensures bodies { BodiesKeep }
    ensures lists { StatementsKeep }
    ensures runs { RunsFit }
    ensures main { MainsFit }
{}
