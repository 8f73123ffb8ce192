//! Offsets of places and pointers of tame programs. Laws alone.
#![tactic(auto)]

ghost use Rattle.ep_alarm_laws.specs.Laws.{ProductsKeepStrides};
ghost use Rattle.ep_tame_numbers.specs.Offsets.{KeepsOffsets};
ghost use Rattle.ep_tame_values.specs.Laws.{OffsetLaws};

use ep_domain::Num;

/// States where offsets of places and pointers stay, over each domain that keeps what they need, and does nothing.
pub fn value_laws<N: Num>()
    ensures { KeepsOffsets N.ops → ProductsKeepStrides N.ops → OffsetLaws N.ops }
{}
