//! Laws: functions that do nothing, with what their contracts state.

ghost use Rattle.ep_closed_laws.specs.BoundedLaws.{RunsAreBounded};

/// Does nothing: its contract is that two machines that end steadily, where no loop takes more turns than a bound, end
/// alike where turns alone are counted.
pub fn bounded_runs()
    ensures { RunsAreBounded }
{}
