//! A table goes back to what it was.

ghost use Rattle.std.specs.Prelude.{◌≡◌, drop, take};
ghost use Rattle.ep_layout.specs.Grown.{CameFrom, IsMarkOf, changed_at, changed_at_each, reopened};
ghost use Rattle.ep_layout.specs.Table.{Table, IsBuilt};

use super::{AggregateEntry, Types};
use crate::types::TableMark;

// An aggregate without its members, if it is there.
fn reopen(aggregates: &mut Vec<AggregateEntry>, aggregate: u32)
    ensures { aggregates.new.items ≡ changed_at reopened aggregates.old.items aggregate }
{
    if (aggregate as usize) < aggregates.len() {
        aggregates[aggregate as usize].body = None;
    }
}

// The completions behind the first so many are undone.
fn reopen_behind(aggregates: &mut Vec<AggregateEntry>, completed: &mut Vec<u32>, count: usize)
    ensures aggregates { aggregates.new.items
        ≡ changed_at_each reopened aggregates.old.items (drop count completed.old.items) }
    ensures completed { completed.new.items ≡ take count completed.old.items }
{
    for _ in count..completed.len() {
        if let Some(aggregate) = completed.pop() {
            reopen(aggregates, aggregate);
        }
    }
}

impl Types {
    /// How much the table has, for a later [`rewind`](Types::rewind).
    pub fn mark(&self) -> TableMark
        ensures mark { IsMarkOf result self.now }
        ensures built { IsBuilt self.now }
    {
        TableMark {
            types: self.types.count(),
            aggregates: self.aggregates.len(),
            completed: self.completed.len(),
        }
    }

    /// The table goes back to what it was at a mark. Costs what has come since.
    pub fn rewind(&mut self, mark: TableMark)
        requires { (t : Table) × CameFrom mark t self.old }
        ensures { (t : Table) → CameFrom mark t self.old → self.new ≡ t }
    {
        reopen_behind(&mut self.aggregates, &mut self.completed, mark.completed);
        self.aggregates.truncate(mark.aggregates);
        self.extents.truncate(mark.types);
        self.types.truncate(mark.types);
    }
}
