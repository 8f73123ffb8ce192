//! Each generated sample means a program: laws alone.
#![tactic(auto)]

ghost use Rattle.ep_sample_programs.specs.Laws.{AllMean};

/// The tree of each sample means a program.
pub fn meanings()
    ensures { AllMean }
{}
