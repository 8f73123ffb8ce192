//! Reports on closed and steady programs by what is known of the cells of two memories. Laws alone.
#![tactic(auto)]

ghost use Rattle.ep_closed_numbers.specs.Laws.{CellsAreExact, CellsReportClosed};

use ep_congruence::Congruence;
use ep_domain::{Num, Pair};
use ep_intervals::Interval;
use ep_single_assigned::single_assigned;
use ep_single_byte_copies::single_byte_copies;
use ep_single_calls::single_calls;
use ep_single_clears::single_clears;
use ep_single_copies::single_copies;
use ep_single_ends::single_ends;
use ep_single_entry::single_entry;
use ep_single_fills::single_fills;
use ep_single_outputs::single_outputs;
use ep_single_states::{single_numbers, single_reshares, single_states};
use ep_single_tests::single_tests;
use ep_single_values::single_values;

/// States that the operations on cells keep what reports on closed and steady programs need, over each domain that
/// keeps single numbers, and does nothing.
pub fn closed_states<N: Num>()
    ensures { CellsAreExact N.ops }
{
    single_entry::<N>();
    single_values::<N>();
    single_tests::<N>();
    single_assigned::<N>();
    single_clears::<N>();
    single_copies::<N>();
    single_outputs::<N>();
    single_byte_copies::<N>();
    single_fills::<N>();
    single_calls::<N>();
    single_ends::<N>();
    single_states::<N>();
    single_reshares::<N>();
}

/// States that each report by intervals with their congruences on a closed and steady program is empty, and does
/// nothing.
pub fn closed_number_reports()
    ensures { CellsReportClosed ⟦<Pair<Interval, Congruence> as Num>⟧.ops }
{
    single_numbers();
    closed_states::<Pair<Interval, Congruence>>();
}
