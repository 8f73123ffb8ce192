//! Faults become alarms.

ghost use Rattle.std.specs.Prelude.{◌≡◌, OnOk};
ghost use Rattle.ep_cell_walks.specs.Alarms.{alarms_with};

use ep_alarms::{Alarm, Alarms};
use ep_equalities::Fault;
use ep_int::Memory;

// Each becomes an alarm on this line.
pub(crate) fn add_faults(line: u32, faults: &[Fault], alarms: &mut Alarms) -> Result<(), Memory>
    ensures { OnOk result (alarms.new ≡ alarms_with alarms.old line faults.now) }
{
    for f in faults {
        alarms.add(Alarm {
            line,
            kind: f.kind,
            left: f.left,
            right: f.right,
        })?;
    }
    Ok(())
}
