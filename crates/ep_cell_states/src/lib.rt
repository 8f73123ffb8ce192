//! What the report means of an analysis that keeps what is known of the cells of two memories: laws alone.
#![tactic(auto)]

ghost use Rattle.ep_cells.specs.States.{Known};
ghost use Rattle.ep_pass.specs.ReportLaws.{AreLawful, EmptyReportsAgree};
ghost use Rattle.ep_transfers.specs.Cells.{cell_ops};
ghost use Rattle.ep_transfers.specs.Laws.{StandsFor};
ghost use Rattle.ep_cell_states.specs.Reports.{CellAlarmsStand, EvenCellAlarmsStand};

use ep_domain::Num;

/// Does nothing: its contract is that each alarm by the operations on what is known of cells is of a kind that the text
/// on its line may have, over every domain.
pub fn cell_alarms<N: Num>()
    ensures cells { CellAlarmsStand N.ops }
    ensures even { EvenCellAlarmsStand N.ops }
{}

/// Does nothing: its contract is that the operations on what is known of cells keep the laws of states, and so that two
/// machines agree on each well-formed program whose report by them is empty, over every domain.
pub fn cell_states<N: Num>()
    ensures lawful { AreLawful (Known N) (cell_ops N.ops) (StandsFor N.ops) }
    ensures agree { EmptyReportsAgree (Known N) (cell_ops N.ops) }
{}
