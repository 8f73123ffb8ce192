//! The walk through a program.

ghost use Rattle.std.specs.Prelude.{◌≡◌, ◌+◌, ◌≤◌, [], if◌then◌else◌, IfOk, None, OnErr, OnOk, Some, slice_get};
ghost use Rattle.ep_flows.specs.View.{CountsUpTo, Tells, capped, plan_of};
ghost use Rattle.ep_pass.specs.Pass.{join_on, logged};
ghost use Rattle.ep_walk.specs.Reported.{end_of, heads_in, report_on, told_in, turns_in};
ghost use Rattle.ep_walk_parts.specs.Pieces.{o};

use ep_flows::flow::{Flow, join_reached};
use ep_flows::log::Log;
use ep_flows::setting::{Running, Setting};
use ep_flows::states::AbstractStates;
use ep_int::Memory;
use ep_statement_walk::pass_function;
use ep_walk_parts::follow::function_at;

/// Goes through main once, and tells the alarms and, where they are wanted, the heads that are kept. To `turns` come
/// the passes through bodies of loops, up to the largest number of 64 bits, where memory runs out those before. Where
/// heads come round, passes are counted and not made. An error says that memory ran out.
pub fn walk<K: AbstractStates>(
    c: &Setting<'_>,
    keeps_heads: bool,
    turns: &mut u64,
) -> Result<Log<K>, Memory>
    ensures report { IfOk result (λ l. l.alarms ≡ report_on K.ops (plan_of c.now)) }
    ensures turns { IfOk result (λ l. turns.new ≡ capped (turns.old + turns_in K.ops (plan_of c.now))) }
    ensures bound { turns.new ≤ turns.old + turns_in K.ops (plan_of c.now) }
    ensures counted { turns.old ≤ turns.new }
    ensures heads { IfOk result (λ l. l.heads ≡ (if keeps_heads then Some (heads_in K.ops (plan_of c.now)) else None)) }
{
    let mut log = Log::new(c.alloc, keeps_heads);
    let done = pass_main(c, &mut log);
    add_turns(turns, log.count);
    match done {
        Ok(()) => Ok(log),
        Err(e) => Err(e),
    }
}

// So many more, up to the largest number of 64 bits.
fn add_turns(turns: &mut u64, more: u64)
    ensures sum { turns.new ≡ capped (turns.old + more) }
    ensures counted { turns.old ≤ turns.new }
{
    *turns = turns.saturating_add(more);
}

// Main, with its end.
fn pass_main<K: AbstractStates>(c: &Setting<'_>, log: &mut Log<K>) -> Result<(), Memory>
    ensures told { OnOk result (Tells (told_in K.ops (plan_of c.now)) log.old log.new) }
    ensures stop { OnErr result (CountsUpTo (turns_in K.ops (plan_of c.now)) log.old.count log.new.count) }
{
    let known: K = K::entry(c)?;
    let flow = pass_function(c, c.program.main, Running::Together, Some(known), log)?;
    end_main(c, flow, log)
}

// Main is left by `return`, then at its end.
fn end_main<K: AbstractStates>(
    c: &Setting<'_>,
    flow: Flow<K>,
    log: &mut Log<K>,
) -> Result<(), Memory>
    ensures told { OnOk result (Tells (logged (end_of K.ops (plan_of c.now)
        (join_on (o K.ops (plan_of c.now)) flow.ways.returned flow.on)) 0 []) log.old log.new) }
    ensures count { log.new.count ≡ log.old.count }
{
    let Flow { on, ways } = flow;
    let left = join_reached(c, ways.returned, on)?;
    match function_at(c, c.program.main) {
        None => Ok(()),
        Some(main) => match left {
            None => Ok(()),
            Some(known) => known.ended(c, main, &mut log.alarms),
        },
    }
}
