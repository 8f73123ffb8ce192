//! Reports on tame programs by what is known of the cells of two memories. Laws alone.
#![tactic(auto)]

ghost use Rattle.std.specs.Prelude.{◌<◌};
ghost use Rattle.ep_alarm_laws.specs.Laws.{ProductsKeepStrides};
ghost use Rattle.ep_tame_numbers.specs.Offsets.{KeepsOffsets};
ghost use Rattle.ep_tame_reports.specs.Laws.{CellsAreTamely, CellsReportTamely};

use ep_congruence::Congruence;
use ep_domain::{Num, Pair};
use ep_even_laws::even_laws;
use ep_intervals::Interval;
use ep_tame_numbers::offset_laws;

/// States that the operations on cells keep what reports on tame programs need, over each domain of small height that
/// keeps what offsets need, and does nothing.
pub fn tame_states<N: Num>()
    ensures { KeepsOffsets N.ops → ProductsKeepStrides N.ops → N.ops.height < 4294967295
        → CellsAreTamely N.ops }
{}

/// States that no report by intervals with their congruences on a tame program has an alarm of the kinds E1 to E4, and
/// does nothing.
pub fn number_reports()
    ensures { CellsReportTamely ⟦<Pair<Interval, Congruence> as Num>⟧.ops }
{
    offset_laws();
    even_laws::<Interval>();
    tame_states::<Pair<Interval, Congruence>>();
}
