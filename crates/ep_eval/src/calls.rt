//! What expressions, places and tests give, told one by one.

ghost use Rattle.std.specs.Prelude.{◌≡◌, ◌++◌, IfOk, OnOk, true, false};
ghost use Rattle.ep_core.specs.View.{expr_view, place_view};
ghost use Rattle.ep_evaluation.specs.Evaluation as spec;
ghost use Rattle.ep_evaluation.specs.Evaluation.{expression, place};
ghost use Rattle.ep_evaluation.specs.Given.{alone};
ghost use Rattle.ep_evaluation.specs.Narrowed.{then_with};
ghost use Rattle.ep_eval_fits.specs.Fitting.{ExprIsFit, PlaceIsFit};
ghost use Rattle.ep_eval_forms.specs.After.{left_of};
ghost use Rattle.ep_eval_forms.specs.Running.{side_of};
ghost use Rattle.ep_eval_forms.specs.Steps.{given_second, pair_if};

use crate::evaluate;
use ep_core::tree::{Expr, Place};
use ep_domain::Num;
use ep_equalities::{Fault, Mode, PairValue};
use ep_eval_forms::pieces::left::{Assumed, Second, Wants};
use ep_eval_forms::pieces::{After, Running};
use ep_int::Memory;
use ep_states::State;

/// What an expression gives in a mode. Its faults are added to those that are there.
pub fn eval<N: Num>(
    e: &Expr,
    sizes: &[u32],
    state: &State<N>,
    mode: Mode,
    faults: &mut Vec<Fault>,
) -> Result<PairValue<N>, Memory>
    requires fit { ExprIsFit (expr_view e.now) }
    ensures value { IfOk result (λ r. r
        ≡ ((expression N.ops sizes.now (expr_view e.now)).gives mode state.now).pair) }
    ensures faults { OnOk result (faults.new.items
        ≡ faults.old.items ++ ((expression N.ops sizes.now (expr_view e.now)).gives mode state.now).faults) }
{
    evaluate::eval(e, sizes, state, mode, faults)
}

/// What a place gives in a mode: its address. Its faults are added to those that are there.
pub fn address<N: Num>(
    a: &Place,
    sizes: &[u32],
    state: &State<N>,
    mode: Mode,
    faults: &mut Vec<Fault>,
) -> Result<PairValue<N>, Memory>
    requires fit { PlaceIsFit (place_view a.now) }
    ensures value { IfOk result (λ r. r ≡ (place N.ops sizes.now (place_view a.now) mode state.now).pair) }
    ensures faults { OnOk result (faults.new.items
        ≡ faults.old.items ++ (place N.ops sizes.now (place_view a.now) mode state.now).faults) }
{
    evaluate::address(a, sizes, state, mode, faults)
}

/// What an expression gives on one side alone, and what is left of the state where it is of each truth that is asked
/// for. The faults are added to those that are there.
pub fn test<N: Num>(
    e: &Expr,
    sizes: &[u32],
    state: &State<N>,
    side: Running,
    wants: Wants,
    faults: &mut Vec<Fault>,
) -> Result<Assumed<N>, Memory>
    requires fit { ExprIsFit (expr_view e.now) }
    ensures value { IfOk result (λ r. r.value
        ≡ ((expression N.ops sizes.now (expr_view e.now)).gives (alone (side_of side)) state.now).pair) }
    ensures faults { OnOk result (faults.new.items ≡ faults.old.items
        ++ ((expression N.ops sizes.now (expr_view e.now)).gives (alone (side_of side)) state.now).faults) }
    ensures yes { IfOk result (λ r. wants.yes ≡ true → left_of state.now r.when_true
        ≡ (expression N.ops sizes.now (expr_view e.now)).assumes (side_of side) true state.now) }
    ensures no { IfOk result (λ r. wants.no ≡ true → left_of state.now r.when_false
        ≡ (expression N.ops sizes.now (expr_view e.now)).assumes (side_of side) false state.now) }
{
    evaluate::test(e, sizes, state, side, wants, faults)
}

/// The second operand of `&&` or `||`, in what the first one leaves. Where it isn't evaluated, it has no faults.
pub fn second<N: Num>(
    e: &Expr,
    sizes: &[u32],
    state: &State<N>,
    side: Running,
    after: After<N>,
    runs: bool,
    wants: Wants,
    faults: &mut Vec<Fault>,
) -> Result<Second<N>, Memory>
    requires fit { ExprIsFit (expr_view e.now) }
    ensures value { IfOk result (λ r. r.value ≡ pair_if (given_second N.ops
        (expression N.ops sizes.now (expr_view e.now)) (side_of side) runs (left_of state.now after))) }
    ensures faults { OnOk result (faults.new.items ≡ faults.old.items ++ spec.later_faults N.ops (given_second N.ops
        (expression N.ops sizes.now (expr_view e.now)) (side_of side) runs (left_of state.now after))) }
    ensures yes { IfOk result (λ r. wants.yes ≡ true → left_of state.now r.when_true
        ≡ then_with (left_of state.now after)
        ((expression N.ops sizes.now (expr_view e.now)).assumes (side_of side) true)) }
    ensures no { IfOk result (λ r. wants.no ≡ true → left_of state.now r.when_false
        ≡ then_with (left_of state.now after)
        ((expression N.ops sizes.now (expr_view e.now)).assumes (side_of side) false)) }
{
    evaluate::second(e, sizes, state, side, after, runs, wants, faults)
}
