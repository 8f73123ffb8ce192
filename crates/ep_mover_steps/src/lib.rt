//! What the analysis knows of a program that only moves bytes, step by step, whatever its inputs are: laws alone.
#![tactic(auto)]

ghost use Rattle.ep_mover_steps.specs.Laws.{AlonesStand, StepsStand};

use ep_domain::Num;

/// Does nothing: its contract is that a statement of a mover that assigns, takes a number or puts one out has no fault
/// where both machines have put out the same bytes, and all is known again after it; and so after an assignment of one
/// machine alone, over every domain.
pub fn mover_steps<N: Num>()
    ensures steps { StepsStand N.ops }
    ensures alone { AlonesStand N.ops }
{}
