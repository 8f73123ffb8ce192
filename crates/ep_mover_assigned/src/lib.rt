//! What the analysis knows of a program that only moves bytes, where numbers are assigned, taken and put out. Laws
//! alone.
#![tactic(auto)]

ghost use Rattle.ep_mover_assigned.specs.Laws.{AssignmentsKeepBytes, InputsKeepBytes, OutputsAgree};

use ep_domain::Num;

/// Does nothing: its contract is that an assignment of a mover has no fault, and each byte is said again after it, on
/// one machine or on both; the same of an input; and that an output has none where both machines put out the same
/// bytes, over every domain.
pub fn mover_assigned<N: Num>()
    ensures assignments { AssignmentsKeepBytes N.ops }
    ensures inputs { InputsKeepBytes N.ops }
    ensures outputs { OutputsAgree N.ops }
{}
