//! Arguments and results of calls, where a state stands for one pair of memories alone: laws alone.
#![tactic(auto)]

ghost use Rattle.ep_single_calls.specs.Laws.{EachCallIsExact};

use ep_domain::Num;

/// Does nothing: its contract is that such a state stays one, without a fault, where arguments go to parameters and
/// where a result goes to its place, over every domain that keeps single numbers.
pub fn single_calls<N: Num>()
    ensures { EachCallIsExact N.ops }
{}
