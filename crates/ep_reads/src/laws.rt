//! Laws: functions that do nothing, with what their contracts state.

ghost use Rattle.ep_reads.specs.Laws.{ReadLaws};
ghost use Rattle.ep_reads.specs.SplitLaws.{SplitLaws, UnifyLaws};
ghost use Rattle.ep_reads.specs.StepLaws.{StepLaws};

use ep_domain::Num;

/// Does nothing: its contract is the laws of reads, over every domain.
pub fn read_laws<N: Num>()
    ensures { ReadLaws N.ops }
{}

/// Does nothing: its contract is the laws of splits, over every domain.
pub fn split_laws<N: Num>()
    ensures { SplitLaws N.ops }
{}

/// Does nothing: its contract is the laws of unification, over every domain.
pub fn unify_laws<N: Num>()
    ensures { UnifyLaws N.ops }
{}

/// Does nothing: its contract is the laws of changes of single cells, over every domain.
pub fn step_laws<N: Num>()
    ensures { StepLaws N.ops }
{}
