//! What holds of an object that lies in another one.

ghost use Rattle.ep_tame_laws.specs.PartLaws.{PartsFit, PartsHaveLeaves, ScalarsAreLeaves};

/// States where an object's bytes and leaves lie in an object round it, and does nothing.
pub fn part_laws()
    ensures fit { PartsFit }
    ensures leaves { PartsHaveLeaves }
    ensures scalars { ScalarsAreLeaves }
{}
