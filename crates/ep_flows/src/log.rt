//! What a walk tells.

ghost use Rattle.std.specs.Prelude.{◌≡◌, ◌+◌, ◌*◌, OnOk, [], ◌∷◌, ◌++◌, None, Some, fold, if◌then◌else◌};
ghost use Rattle.std.specs.Option.{option_map};
ghost use Rattle.ep_alarms.specs.Report.{added};
ghost use Rattle.ep_pass.specs.Pass.{alarm, differ, logged, plain_alarm};
ghost use Rattle.ep_flows.specs.View.{Tells, Told, capped, kept_heads};

use ep_alarms::{Alarm, AlarmKind, Alarms};
use ep_int::Memory;
use std::alloc::Global;
use std::marker::Model;

/// The alarms, the count of passes through bodies of loops up to the largest number of 64 bits, and the heads, where
/// they are kept.
#[derive(Drop)]
pub struct Log<K> {
    pub alarms: Alarms,
    pub count: u64,
    pub heads: Option<Vec<K>>,
}

impl<K> Model for Log<K> {
    ghost Value = { Told K };

    ghost view = { λ l. record { alarms = l.alarms; count = l.count; heads = option_map (λ h. h.items) l.heads } };
}

fn plain(kind: AlarmKind, line: u32) -> Alarm
    ensures { result ≡ plain_alarm kind line }
{
    Alarm {
        line,
        kind,
        left: (0, 0),
        right: (0, 0),
    }
}

impl<K: Drop> Log<K> {
    /// Nothing yet.
    pub fn new(alloc: Global, keeps_heads: bool) -> Log<K>
        ensures alarms { result.alarms ≡ [] }
        ensures count { result.count ≡ 0 }
        ensures heads { result.heads ≡ (if keeps_heads then Some [] else None) }
    {
        Log {
            alarms: Alarms::new(alloc),
            count: 0,
            heads: if keeps_heads {
                Some(Vec::new(alloc))
            } else {
                None
            },
        }
    }

    /// A body of a loop is entered.
    pub fn turn(&mut self)
        ensures { Tells (logged [] 1 []) self.old self.new }
    {
        self.count = self.count.saturating_add(1);
    }

    /// An alarm that shows no number.
    pub fn alarm(&mut self, kind: AlarmKind, line: u32) -> Result<(), Memory>
        ensures told { OnOk result (Tells (logged (alarm (plain_alarm kind line) ∷ []) 0 []) self.old self.new) }
        ensures count { self.new.count ≡ self.old.count }
    {
        self.alarms.add(plain(kind, line))
    }

    /// The sides are left by different ways, where this state is reached.
    pub fn differ(&mut self, line: u32, way: &Option<K>) -> Result<(), Memory>
        ensures told { OnOk result (Tells (logged (differ line way.now) 0 []) self.old self.new) }
        ensures count { self.new.count ≡ self.old.count }
    {
        match way {
            None => Ok(()),
            Some(_) => self.alarm(AlarmKind::E3, line),
        }
    }

    /// Of turns that may be dropped, what they tell.
    pub fn begun(&self, alloc: Global) -> Log<K>
        ensures alarms { result.alarms ≡ [] }
        ensures count { result.count ≡ 0 }
        ensures heads { result.heads ≡ option_map (λ h. []) self.now.heads }
    {
        Log {
            alarms: Alarms::new(alloc),
            count: 0,
            heads: match &self.heads {
                None => None,
                Some(_) => Some(Vec::new(alloc)),
            },
        }
    }

    /// So many times so many passes more.
    pub fn count_more(&mut self, times: u128, turns: u64)
        ensures alarms { self.new.alarms ≡ self.old.alarms }
        ensures count { capped self.new.count ≡ capped (self.old.count + times * turns) }
        ensures heads { self.new.heads ≡ self.old.heads }
    {
        self.count = self
            .count
            .saturating_add(up_to_limit(times).saturating_mul(turns));
    }

    /// The turn from this head is kept, with what it tells but its count.
    pub fn keep(&mut self, head: K, found: Log<K>) -> Result<(), Memory>
        ensures alarms { OnOk result (self.new.alarms ≡ fold added self.old.alarms found.alarms) }
        ensures count { self.new.count ≡ self.old.count }
        ensures heads { OnOk result (self.new.heads ≡ kept_heads self.old.heads head found.heads) }
    {
        let Log {
            alarms,
            count: _,
            heads,
        } = found;
        add_all(&mut self.alarms, &alarms)?;
        add_heads(&mut self.heads, head, heads)
    }
}

// Up to the largest number of 64 bits.
fn up_to_limit(n: u128) -> u64
    ensures { result ≡ capped n }
{
    n.min(u128::from(u64::MAX)) as u64
}

// The faults of a turn become alarms.
fn add_all(alarms: &mut Alarms, found: &Alarms) -> Result<(), Memory>
    ensures { OnOk result (alarms.new ≡ fold added alarms.old found.now) }
{
    for a in found.list() {
        alarms.add(*a)?;
    }
    Ok(())
}

// A head, and those inside its turn, where they are kept.
fn add_heads<K: Drop>(
    heads: &mut Option<Vec<K>>,
    head: K,
    more: Option<Vec<K>>,
) -> Result<(), Memory>
    ensures { OnOk result (option_map (λ h. h.items) heads.new
        ≡ kept_heads (option_map (λ h. h.items) heads.old) head (option_map (λ h. h.items) more)) }
{
    let Some(heads) = heads else { return Ok(()) };
    heads.push(head).map_err(|_| Memory)?;
    let Some(mut more) = more else { return Ok(()) };
    heads.append(&mut more).map_err(|_| Memory)
}
