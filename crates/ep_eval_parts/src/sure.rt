//! Faults beside which a value may be none of those known.

ghost use Rattle.std.specs.Prelude.{◌≡◌, drop};
ghost use Rattle.ep_evaluation.specs.Given as given;

use ep_alarms::AlarmKind;
use ep_equalities::Fault;

fn is_of_reading(kind: AlarmKind) -> bool
    ensures { result ≡ given.is_of_reading kind }
{
    match kind {
        AlarmKind::U1 => false,
        AlarmKind::U2 => false,
        AlarmKind::U3 => false,
        AlarmKind::U4 => true,
        AlarmKind::U5 => false,
        AlarmKind::U6 => false,
        AlarmKind::U7 => false,
        AlarmKind::U8 => false,
        AlarmKind::U9 => false,
        AlarmKind::U10 => true,
        AlarmKind::E1 => false,
        AlarmKind::E2 => false,
        AlarmKind::E3 => false,
        AlarmKind::E4 => false,
    }
}

/// Whether of what was read each value is known, by the faults from this one on.
pub fn are_sure(faults: &[Fault], from: usize) -> bool
    ensures { result ≡ given.are_sure (drop from faults.now) }
{
    for i in from..faults.len() {
        if is_of_reading(faults[i].kind) {
            return false;
        }
    }
    true
}
