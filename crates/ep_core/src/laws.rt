//! What holds of all runs.

ghost use Rattle.ep_core.specs.Laws.{StepsGoOn, TurnsGoOn, TurnsGoFurther, StepsReach, TurnsStay, BodiesStand};
ghost use Rattle.ep_core.specs.Laws.{AgreesAlong, LeavesByItsWays};

/// States the laws of runs, and does nothing.
pub fn laws()
    ensures steps { StepsGoOn }
    ensures turns { TurnsGoOn }
    ensures more_turns { TurnsGoFurther }
    ensures reach { StepsReach }
    ensures turns_stay { TurnsStay }
    ensures bodies { BodiesStand }
    ensures along { AgreesAlong }
    ensures ways { LeavesByItsWays }
{}
