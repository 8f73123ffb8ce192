//! Tests where a state stands for one pair of memories alone: laws alone.
#![tactic(auto)]

ghost use Rattle.ep_single_tests.specs.Laws.{TestsAreExact};

use ep_domain::Num;

/// Does nothing: its contract is that in such a state a test has no fault, and that just the truths that the machines
/// have can be assumed, which leaves such a state, over every domain that keeps single numbers.
pub fn single_tests<N: Num>()
    ensures { TestsAreExact N.ops }
{}
