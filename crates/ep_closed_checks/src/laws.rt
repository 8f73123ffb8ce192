//! What the checker answers on closed programs.

ghost use Rattle.ep_closed_checks.specs.Laws.{ClosedProgramsPass};

use ep_closed_laws::laws::ExactStates;

/// States that the checker says yes to a closed and steady program without any heads, where one turn more is unrolled
/// than its loops take, and does nothing.
pub fn closed_checks<S: ExactStates>()
    ensures { ClosedProgramsPass S S.ops }
{}
