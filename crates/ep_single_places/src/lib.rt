//! Accesses, tests, comparisons and moves of values that can be one alone: laws alone.
#![tactic(auto)]

ghost use Rattle.ep_single_places.specs.Laws.{AccessesAreOne, LoadsAreOne, ComparisonsAreOne, TruthsAreOne};
ghost use Rattle.ep_single_places.specs.MoveLaws.{ElementsAreOne, MovesAreOne};

use ep_domain::Num;

/// Does nothing: its contract is that an access through one pointer, where the machine's is defined, is at one place,
/// without a fault, and reads one value, over every domain.
pub fn single_accesses<N: Num>()
    ensures accesses { AccessesAreOne N.ops }
    ensures loads { LoadsAreOne N.ops }
{}

/// Does nothing: its contract is that one value has one truth, and two pointers of one member each compare one way,
/// over every domain.
pub fn single_pointers<N: Num>()
    ensures truths { TruthsAreOne N.ops }
    ensures comparisons { ComparisonsAreOne N.ops }
{}

/// Does nothing: its contract is that one pointer moved by one number, and an element of one index, are one pointer,
/// without a fault, where the machine's are defined, over every domain.
pub fn single_moves<N: Num>()
    ensures moves { MovesAreOne N.ops }
    ensures elements { ElementsAreOne N.ops }
{}
