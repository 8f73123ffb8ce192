//! Kinds of undefined behaviour.

ghost use Rattle.std.specs.Prelude.{◌≡◌};
ghost use Rattle.ep_bytes.specs.View.{alarm_of};
ghost use Rattle.ep_machine.specs.Faults.{kind_named, kind_of};

use ep_alarms::AlarmKind;

/// What behaviour is undefined.
#[derive(Debug, Clone, Copy, PartialEq, Eq)]
pub enum Fault {
    Overflow,
    Division,
    Shift,
    Uninitialised,
    Bounds,
    NullPointer,
    Alignment,
    PointerMix,
    Overlap,
    PointerPart,
}

impl Fault {
    /// The alarm that names it.
    pub fn alarm(self) -> AlarmKind
        ensures { result ≡ alarm_of (kind_of self) }
    {
        match self {
            Fault::Overflow => AlarmKind::U1,
            Fault::Division => AlarmKind::U2,
            Fault::Shift => AlarmKind::U3,
            Fault::Uninitialised => AlarmKind::U4,
            Fault::Bounds => AlarmKind::U5,
            Fault::NullPointer => AlarmKind::U6,
            Fault::Alignment => AlarmKind::U7,
            Fault::PointerMix => AlarmKind::U8,
            Fault::Overlap => AlarmKind::U9,
            Fault::PointerPart => AlarmKind::U10,
        }
    }
}

/// What an alarm names.
pub fn fault_of(k: AlarmKind) -> Fault
    ensures { kind_of result ≡ kind_named k }
{
    match k {
        AlarmKind::U1 => Fault::Overflow,
        AlarmKind::U2 => Fault::Division,
        AlarmKind::U3 => Fault::Shift,
        AlarmKind::U4 => Fault::Uninitialised,
        AlarmKind::U5 => Fault::Bounds,
        AlarmKind::U6 => Fault::NullPointer,
        AlarmKind::U7 => Fault::Alignment,
        AlarmKind::U8 => Fault::PointerMix,
        AlarmKind::U9 => Fault::Overlap,
        AlarmKind::U10 => Fault::PointerPart,
        AlarmKind::E1 => Fault::PointerPart,
        AlarmKind::E2 => Fault::PointerPart,
        AlarmKind::E3 => Fault::PointerPart,
        AlarmKind::E4 => Fault::PointerPart,
    }
}
