//! The report on a program.

ghost use Rattle.std.specs.Prelude.{◌≡◌, ◌+◌, ◌≤◌, true, false, [], if◌then◌else◌, IfOk, unwrap_or};
ghost use Rattle.std.specs.Option.{option_map};
ghost use Rattle.ep_alarm_laws.specs.Laws.{ProductsKeepStrides};
ghost use Rattle.ep_core.specs.Exec.{is_order};
ghost use Rattle.ep_core.specs.ProgramView.{program_view};
ghost use Rattle.ep_flows.specs.View.{capped};
ghost use Rattle.ep_iterator.specs.Reports.{AllMayStand, alarms_of, heads_of, most_turns, turns_of};
ghost use Rattle.ep_pass.specs.Agreement.{AgreeInTheEnd};

use ep_alarms::Alarms;
use ep_cell_states::{cell_alarms, cell_states};
use ep_cell_walks::{KnownCells, block_sizes};
use ep_core::program::CoreProgram;
use ep_domain::Num;
use ep_flows::bound::last_head;
use ep_flows::log::Log;
use ep_flows::setting::Setting;
use ep_int::{Memory, Order};
use ep_pass::laws::reports;
use ep_walk::walk;
use std::alloc::Global;

/// What an analysis found: the alarms, in order, and, where they are asked for, the heads from which the last passes of
/// joint loops begin.
#[derive(Drop)]
pub struct Report<N> {
    pub alarms: Alarms,
    pub heads: Vec<KnownCells<N>>,
}

fn kept<N: Num>(alloc: Global, heads: Option<Vec<KnownCells<N>>>) -> Vec<KnownCells<N>>
    ensures { result.items ≡ unwrap_or (option_map (λ h. h.items) heads) [] }
{
    match heads {
        None => Vec::new(alloc),
        Some(heads) => heads,
    }
}

fn told<N: Num>(alloc: Global, log: Log<KnownCells<N>>) -> Report<N>
    ensures alarms { result.alarms ≡ log.alarms }
    ensures heads { result.heads.items ≡ unwrap_or log.heads [] }
{
    Report {
        alarms: log.alarms,
        heads: kept(alloc, log.heads),
    }
}

/// Goes through a program once, for two machines of these byte orders that are otherwise alike, with what `N` knows of
/// numbers. Of a loop's turns the first `unroll` are gone through one by one; where heads of a loop come round, passes
/// are counted and not made. To `turns` come the passes through bodies of loops, up to the largest number of 64 bits.
/// Heads are kept only where they are asked for. An error says that memory ran out: `turns` then has what was counted
/// before.
pub fn analyse<N: Num>(
    alloc: Global,
    program: &CoreProgram,
    orders: (Order, Order),
    unroll: u32,
    keeps_heads: bool,
    turns: &mut u64,
) -> Result<Report<N>, Memory>
    ensures alarms { IfOk result (λ r. r.alarms ≡ alarms_of N.ops (program_view program.now) orders.0 orders.1 unroll) }
    ensures turns { IfOk result (λ r. turns.new
        ≡ capped (turns.old + turns_of N.ops (program_view program.now) orders.0 orders.1 unroll)) }
    ensures bound { turns.new ≤ turns.old + most_turns N.ops (program_view program.now) orders.0 orders.1 unroll }
    ensures counted { turns.old ≤ turns.new }
    // Where memory runs out too, no more are counted than there are, and there are no more than the bound.
    ensures within { turns.new ≤ turns.old + turns_of N.ops (program_view program.now) orders.0 orders.1 unroll }
    ensures few { turns_of N.ops (program_view program.now) orders.0 orders.1 unroll
        ≤ most_turns N.ops (program_view program.now) orders.0 orders.1 unroll }
    ensures heads { IfOk result (λ r. r.heads.items
        ≡ (if keeps_heads then heads_of N.ops (program_view program.now) orders.0 orders.1 unroll else [])) }
    // Where no alarm is raised, two machines of different byte orders agree.
    ensures agree { IfOk result (λ r. is_order orders.0 orders.1 ≡ false → r.alarms ≡ []
        → AgreeInTheEnd (program_view program.now) orders.0 orders.1) }
    // Each alarm is of a kind that the text on its line may have.
    ensures stand { IfOk result (λ r. AllMayStand false (program_view program.now) r.alarms) }
    // So it is where numbers keep strides, by the text that then may be at fault.
    ensures even { IfOk result (λ r. N.ops.keeps_strides ≡ true → ProductsKeepStrides N.ops
        → AllMayStand true (program_view program.now) r.alarms) }
{
    cell_states::<N>();
    cell_alarms::<N>();
    reports::<KnownCells<N>>();
    program.types.model();
    let sizes = block_sizes(alloc, program)?;
    let setting = Setting {
        alloc,
        program,
        sizes: &sizes,
        left: orders.0,
        right: orders.1,
        unroll,
        limit: last_head(program, N::HEIGHT),
    };
    let log = walk::<KnownCells<N>>(&setting, keeps_heads, turns)?;
    Ok(told(alloc, log))
}
