//! Laws: functions that do nothing, with what their contracts state.

ghost use Rattle.ep_evaluation.specs.Laws.{EvaluationLaws, TestLaws, OnlyLaws};

use ep_domain::Num;

/// Does nothing: its contract is the laws of expressions and lvalues, over every domain.
pub fn evaluation_laws<N: Num>()
    ensures { EvaluationLaws N.ops }
{}

/// Does nothing: its contract is the laws of tests and of assuming their truths, over every domain.
pub fn test_laws<N: Num>()
    ensures { TestLaws N.ops }
{}

/// Does nothing: its contract is what values of one truth alone exclude, over every domain.
pub fn only_laws<N: Num>()
    ensures { OnlyLaws N.ops }
{}
