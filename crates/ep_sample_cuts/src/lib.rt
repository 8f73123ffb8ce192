//! Each generated sample cuts into its tokens: laws alone.
#![tactic(auto)]

ghost use Rattle.ep_sample_cuts.specs.Laws.{AllCut};

/// Each sample cuts into its tokens.
pub fn cuts()
    ensures { AllCut }
{}
