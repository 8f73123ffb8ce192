//! Of programs that only move whole variables the report is exact: laws alone.
#![tactic(auto)]

ghost use Rattle.ep_straight_laws.specs.Laws.{StraightIsExact, MeetsKeepSingles, IsStraightExact};

use ep_congruence::Congruence;
use ep_domain::{Num, Pair};
use ep_intervals::Interval;

/// Does nothing: its contract is that the report on a program that only moves whole variables is empty where the
/// machines agree on it, one of which is little-endian, over every domain in which what equal single numbers have in
/// common is single.
pub fn straight_verdicts<N: Num>()
    ensures exact { StraightIsExact N.ops }
{}

/// Does nothing: its contract is that what equal single numbers have in common is single over intervals with
/// congruences, and that the report over them is empty where the machines agree.
pub fn straight_numbers()
    ensures meets { MeetsKeepSingles ⟦<Pair<Interval, Congruence> as Num>⟧.ops }
    ensures exact { IsStraightExact ⟦<Pair<Interval, Congruence> as Num>⟧.ops }
{
    straight_verdicts::<Pair<Interval, Congruence>>();
}
