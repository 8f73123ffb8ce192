//! Laws: functions that do nothing, with what their contracts state.

ghost use Rattle.ep_elaboration.specs.CallLaws.{Recursion, Labels, Ranks, Depths, Orders, CallSites};

/// A call recurs exactly where its callee leads back to its caller, by however many calls.
pub fn recursion()
    ensures all { Recursion }
    ensures labels { Labels }
    ensures ranks { Ranks }
{}

/// Where each function calls only those of a smaller rank, a function is as deep as the deepest of its statements, with
/// what they call.
pub fn depths()
    ensures { Depths }
{}

/// There a function comes behind those that it calls, and none comes twice.
pub fn orders()
    ensures steps { Orders }
    ensures places { CallSites }
{}
