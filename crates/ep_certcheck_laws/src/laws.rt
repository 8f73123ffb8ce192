//! What a yes of the checker means.

ghost use Rattle.ep_certcheck_laws.specs.Laws.{CheckedProgramsAgree};

use ep_pass::laws::States;

/// States that the machines of two byte orders agree on a program on which the checker's answer is yes, whatever heads
/// it was given, and does nothing.
pub fn checked_programs<S: States>()
    ensures { CheckedProgramsAgree S S.ops }
{}
