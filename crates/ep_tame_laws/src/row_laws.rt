//! What holds of places of tame programs.

ghost use Rattle.ep_tame_laws.specs.Laws.{PlacesHaveRows, RowsAreLaid, AddressesGoAlong};

/// States where places lie, and does nothing.
pub fn row_laws()
    ensures rows { PlacesHaveRows }
    ensures laid { RowsAreLaid }
    ensures along { AddressesGoAlong }
{}
