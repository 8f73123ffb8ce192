//! What stops a checker on its way.

ghost use Rattle.std.specs.Prelude.{◌≡◌};
ghost use Rattle.ep_certcheck_walk.specs.declared.stop.Stop.TheVariants.{OutOfMemory as wanting};
ghost use Rattle.ep_certcheck_walk.specs.Stops.{LooksAt};

use ep_alarms::{AlarmKind, Alarms};
use ep_int::Memory;

/// What stops a checker on its way.
#[derive(Clone, Copy, Debug)]
pub enum Stop {
    OutOfMemory,
    /// A fault on this line.
    Fault(u32, AlarmKind),
    /// A state is outside the head of this number, whose cell of this number is the first that it fails.
    Outside(u64, u64),
    /// No head is left for the loop on this line.
    Missing(u32),
}

impl From<Memory> for Stop {
    ghost from_gives = { λ _ e. e ≡ wanting };

    fn from(_e: Memory) -> Stop {
        Stop::OutOfMemory
    }
}

/// The first alarm stops.
pub fn look(alarms: &Alarms) -> Result<(), Stop>
    ensures { LooksAt alarms.now result }
{
    match alarms.list().first() {
        None => Ok(()),
        Some(a) => Err(Stop::Fault(a.line, a.kind)),
    }
}
