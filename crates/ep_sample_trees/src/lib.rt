//! The tokens and the tree of each generated sample, by the grammar: laws alone.
#![tactic(auto)]

ghost use Rattle.ep_sample_trees.specs.Laws.{AllDerive, NoneIsDeep};

/// The tokens of each sample are a program, in which nothing stands too deep.
pub fn derivations()
    ensures derived { AllDerive }
    ensures shallow { NoneIsDeep }
{}
