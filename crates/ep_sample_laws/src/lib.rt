//! Each generated sample means a program within the limits, so that none is refused: laws alone.
#![tactic(auto)]

ghost use Rattle.ep_sample_laws.specs.Laws.{AllMeanWithin};

/// Each sample means a program within the limits.
pub fn samples()
    ensures { AllMeanWithin }
{}
