//! A scalar that is stored, where a state stands for one pair of memories alone: laws alone.
#![tactic(auto)]

ghost use Rattle.ep_single_stores.specs.Laws.{StoresKeepOne};
ghost use Rattle.ep_single_stores.specs.WriteLaws.{WritesKeepOne};

use ep_domain::Num;

/// Does nothing: its contract is that such a state stays one where one value is stored at one place of a side, or of
/// both, over every domain.
pub fn single_stores<N: Num>()
    ensures { StoresKeepOne N.ops }
{}

/// Does nothing: its contract is that such a state stays one where a pair of values is written, in each mode, over
/// every domain that keeps single numbers.
pub fn single_writes<N: Num>()
    ensures { WritesKeepOne N.ops }
{}
