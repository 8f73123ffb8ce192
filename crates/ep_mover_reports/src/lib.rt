//! Reports on movers by what is known of the cells of two memories: laws alone.
#![tactic(auto)]

ghost use Rattle.ep_mover_reports.specs.Laws.{MoverCellsReportNothing, NaturalsReportNothing};

use ep_cell_states::cell_states;
use ep_congruence::Congruence;
use ep_domain::{Num, Pair};
use ep_intervals::Interval;
use ep_mover_ends::mover_ends;
use ep_mover_entry::mover_entry;
use ep_mover_numbers::natural_laws;
use ep_mover_put_bytes::mover_put_bytes;
use ep_mover_steps::mover_steps;
use ep_mover_take_bytes::mover_take_bytes;

/// Does nothing: its contract is that the report on a mover is empty where its machines agree, over each domain that
/// keeps numbers that aren't negative so.
pub fn mover_cells<N: Num>()
    ensures { NaturalsReportNothing N.ops }
{
    cell_states::<N>();
    mover_steps::<N>();
    mover_take_bytes::<N>();
    mover_put_bytes::<N>();
    mover_entry::<N>();
    mover_ends::<N>();
}

/// Does nothing: its contract is that of `mover_cells` over intervals with congruences.
pub fn mover_number_reports()
    ensures { MoverCellsReportNothing ⟦<Pair<Interval, Congruence> as Num>⟧.ops }
{
    natural_laws();
    mover_cells::<Pair<Interval, Congruence>>();
}
