//! What the analysis gives of expressions of programs that only move bytes: laws alone.
#![tactic(auto)]

ghost use Rattle.ep_mover_values.specs.Laws.{ExpressionsGiveBytes, PlacesAreAt};

use ep_domain::Num;

/// Does nothing: its contract is that an expression whose bytes the text tells has a number without a fault, and the
/// form of these bytes, on each running machine that finds one; and that a place of a mover is the machine's, over
/// every domain.
pub fn mover_values<N: Num>()
    ensures places { PlacesAreAt N.ops }
    ensures expressions { ExpressionsGiveBytes N.ops }
{}
