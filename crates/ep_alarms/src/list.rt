//! The list of a report, kept in order.

ghost use Rattle.std.specs.Prelude.{◌≡◌, List, [], IsTrue, OnOk, OnErr, IsOk, length, ◌≤◌, ◌↔◌, All, Contains, IsFalse};
ghost use Rattle.ep_alarms.specs.declared.types.Alarm.{Alarm};
ghost use Rattle.ep_alarms.specs.Alarm.{FitsTypes, stand_together};
ghost use Rattle.ep_alarms.specs.Report.{IsPlace, IsReport, added, has_place};

use crate::types::Alarm;
use ep_int::Memory;
use std::alloc::Global;
use std::marker::Model;

/// The alarms of a report, in order of line, then kind, at most one for each line and kind.
#[derive(Debug, Drop)]
pub struct Alarms {
    alarms: Vec<Alarm>,
}

impl Model for Alarms {
    ghost Value = { List Alarm };

    ghost view = { λ s. s.alarms.items };

    ghost invariant = { λ s. IsReport s.alarms.items × All FitsTypes s.alarms.items };
}

impl Alarms {
    /// No alarms. Takes no memory.
    pub fn new(alloc: Global) -> Alarms
        ensures { result ≡ [] }
    {
        Alarms {
            alarms: Vec::new(alloc),
        }
    }

    /// Puts an alarm in its place. One of its line and kind that is there is widened to hold its ranges, which takes no
    /// memory.
    pub fn add(&mut self, a: Alarm) -> Result<(), Memory>
        ensures ok { OnOk result (self.new ≡ added self.old a) }
        ensures err { OnErr result (self.new ≡ self.old) }
        // The alarms of every other line and kind stay.
        ensures others { OnOk result ((b : Alarm) → IsFalse (stand_together b a)
            → Contains self.new b ↔ Contains self.old b) }
        ensures widens { IsTrue (has_place self.old a) → IsOk result }
    {
        let place = place_of(&self.alarms, &a);
        if place < self.alarms.len() && !a.is_before(&self.alarms[place]) {
            self.alarms[place] = self.alarms[place].joined(&a);
            return Ok(());
        }
        self.alarms.insert(place, a).map_err(|_| Memory)
    }

    /// The alarms, in order.
    pub fn list(&self) -> &[Alarm]
        ensures all { result.now ≡ self.now }
        ensures ordered { IsReport self.now }
        ensures typed { All FitsTypes self.now }
    {
        self.alarms.as_slice()
    }
}

// How many of the alarms stand before this one.
fn place_of(alarms: &[Alarm], a: &Alarm) -> usize
    requires { IsReport alarms.now }
    ensures within { result ≤ length alarms.now }
    ensures place { IsPlace alarms.now a.now result }
{
    alarms.partition_point(|b| b.is_before(a))
}
