//! What assuming a truth leaves of a state that stands for one pair of memories alone: laws alone.
#![tactic(auto)]

ghost use Rattle.ep_single_narrowed.specs.Laws.{NumbersAreRefused, NumbersStayOne, PointersAreRefused, PointersStayOne};
ghost use Rattle.ep_single_narrowed.specs.Laws.{TestsAreRefused, TestsStayOne};

use ep_domain::Num;

/// Does nothing: its contract is that such a state stays one where what is assumed is so, over every domain that keeps
/// single numbers.
pub fn single_narrowed<N: Num>()
    ensures numbers { NumbersStayOne N.ops }
    ensures pointers { PointersStayOne N.ops }
    ensures tests { TestsStayOne N.ops }
{}

/// Does nothing: its contract is that of single values nothing else can be assumed, over every domain.
pub fn single_refused<N: Num>()
    ensures numbers { NumbersAreRefused N.ops }
    ensures pointers { PointersAreRefused N.ops }
    ensures tests { TestsAreRefused N.ops }
{}
