//! What an alarm is, and where it stands in a report.

ghost use Rattle.std.specs.Prelude.{◌≡◌};
ghost use Rattle.ep_alarms.specs.Alarm.{before, joined, least_range, name_of};

/// What may go wrong: undefined behaviour (`U1` to `U10`), or a difference between the two byte orders (`E1` to `E4`).
#[derive(Clone, Copy, Debug, PartialEq, Eq, PartialOrd, Ord)]
pub enum AlarmKind {
    U1,
    U2,
    U3,
    U4,
    U5,
    U6,
    U7,
    U8,
    U9,
    U10,
    E1,
    E2,
    E3,
    E4,
}

impl AlarmKind {
    /// The code and the name, as a text prints them: `E1 output-differs`.
    pub fn name(self) -> &'static str
        ensures { result.now ≡ name_of self }
    {
        match self {
            AlarmKind::U1 => "U1 overflow",
            AlarmKind::U2 => "U2 division",
            AlarmKind::U3 => "U3 shift",
            AlarmKind::U4 => "U4 uninitialised",
            AlarmKind::U5 => "U5 bounds",
            AlarmKind::U6 => "U6 null",
            AlarmKind::U7 => "U7 alignment",
            AlarmKind::U8 => "U8 pointer-mix",
            AlarmKind::U9 => "U9 overlap",
            AlarmKind::U10 => "U10 pointer-bytes",
            AlarmKind::E1 => "E1 output-differs",
            AlarmKind::E2 => "E2 one-sided-io",
            AlarmKind::E3 => "E3 one-sided-jump",
            AlarmKind::E4 => "E4 one-sided-loop",
        }
    }
}

/// One alarm: a kind of fault on a line of the source.
#[derive(Clone, Copy, Debug, PartialEq, Eq)]
pub struct Alarm {
    pub line: u32,
    pub kind: AlarmKind,
    /// The least and the greatest number that the kind shows, on the first of the two machines.
    pub left: (i128, i128),
    /// The same on the second machine.
    pub right: (i128, i128),
}

impl Alarm {
    pub(crate) fn is_before(&self, other: &Alarm) -> bool
        ensures { result ≡ before self.now other.now }
    {
        self.line < other.line || (self.line == other.line && self.kind < other.kind)
    }

    pub(crate) fn joined(&self, other: &Alarm) -> Alarm
        ensures { result ≡ joined self.now other.now }
    {
        Alarm {
            left: hull(self.left, other.left),
            right: hull(self.right, other.right),
            ..*self
        }
    }
}

fn hull(a: (i128, i128), b: (i128, i128)) -> (i128, i128)
    ensures { result ≡ least_range a b }
{
    (a.0.min(b.0), a.1.max(b.1))
}
