//! What is left of a state where a test has truths on the running sides. Where its value is of the other truth alone,
//! nothing is.
#![tactic(auto)]

ghost use Rattle.std.specs.Prelude.{◌≡◌, ◌++◌, ◌||◌, IfOk, OnOk, None, not, true, false};
ghost use Rattle.ep_cells.specs.States.{Known};
ghost use Rattle.ep_core.specs.Runs.{left, right};
ghost use Rattle.ep_core.specs.View.{expr_view};
ghost use Rattle.ep_equalities.specs.declared.pair.Mode.TheVariants.{Both};
ghost use Rattle.ep_evaluation.specs.Evaluation as spec;
ghost use Rattle.ep_evaluation.specs.Evaluation.{expression};
ghost use Rattle.ep_evaluation.specs.Given.{alone};
ghost use Rattle.ep_evaluation.specs.Operators as operators;
ghost use Rattle.ep_eval_fits.specs.Fitting.{ExprIsFit};
ghost use Rattle.ep_eval.specs.After.{left_of};
ghost use Rattle.ep_eval.specs.Running.{side_of};

use ep_core::tree::Expr;
use ep_domain::Num;
use ep_equalities::{Fault, Mode, PairValue, SideValue};
pub use ep_eval as expressions;
use ep_eval::{
    After, Assumed, Running, Second, Wants, assumed_on_both, eval, is_only, second, test,
};
use ep_int::Memory;
use ep_states::State;

fn is_other<N: Num>(x: &SideValue<N>, truth: bool) -> bool
    ensures { result ≡ operators.is_only N.ops x.now.value (not truth) }
{
    is_only(&x.value, !truth)
}

fn is_some_other<N: Num>(x: &PairValue<N>, on_left: bool, on_right: bool) -> bool
    ensures { result ≡ (operators.is_only N.ops x.now.left.value (not on_left)
        || operators.is_only N.ops x.now.right.value (not on_right)) }
{
    is_other(&x.left, on_left) || is_other(&x.right, on_right)
}

/// What is left where both sides run, and a test has these truths.
pub fn test_taken<N: Num>(
    e: &Expr,
    sizes: &[u32],
    state: &State<N>,
    on_left: bool,
    on_right: bool,
) -> Result<After<N>, Memory>
    requires { ExprIsFit (expr_view e.now) }
    ensures { IfOk result (λ r. left_of state.now r ≡ spec.test_taken N.ops
        (expression N.ops sizes.now (expr_view e.now)) on_left on_right state.now) }
{
    let mut unseen = Vec::new(state.allocator());
    let x = eval(e, sizes, state, Mode::Both, &mut unseen)?;
    if is_some_other(&x, on_left, on_right) {
        return Ok(After::Nothing);
    }
    assumed_on_both(e, sizes, state, on_left, on_right)
}

fn unless<N: Num>(other: bool, x: After<N>) -> After<N>
    ensures { (k : Known N) → left_of k result ≡ spec.unless N.ops other (left_of k x) }
{
    if other {
        return After::Nothing;
    }
    x
}

// ---- all combinations of truths

/// The combinations of truths on both sides for which what is left is asked for.
#[derive(Clone, Copy)]
pub struct Combinations {
    /// One truth on both sides.
    pub alike: bool,
    /// One on each side.
    pub apart: bool,
}

/// What is left of a state for each combination of truths of a test, the left side's first.
#[derive(Drop)]
pub struct Taken<N> {
    pub true_true: After<N>,
    pub true_false: After<N>,
    pub false_true: After<N>,
    pub false_false: After<N>,
}

fn never<N>() -> Second<N>
    ensures yes { (k : Known N) → left_of k result.when_true ≡ None }
    ensures no { (k : Known N) → left_of k result.when_false ≡ None }
{
    Second {
        value: None,
        when_true: After::Nothing,
        when_false: After::Nothing,
    }
}

// What is left for both truths on the right side, by what one on the left leaves.
fn taken_with<N: Num>(
    e: &Expr,
    sizes: &[u32],
    state: &State<N>,
    x: &PairValue<N>,
    on_left: bool,
    after: After<N>,
    wants: Wants,
) -> Result<Second<N>, Memory>
    requires fit { ExprIsFit (expr_view e.now) }
    requires value { x.now ≡ ((expression N.ops sizes.now (expr_view e.now)).gives Both state.now).pair }
    requires left { left_of state.now after
        ≡ (expression N.ops sizes.now (expr_view e.now)).assumes left on_left state.now }
    ensures yes { IfOk result (λ r. wants.yes ≡ true → left_of state.now r.when_true ≡ spec.test_taken N.ops
        (expression N.ops sizes.now (expr_view e.now)) on_left true state.now) }
    ensures no { IfOk result (λ r. wants.no ≡ true → left_of state.now r.when_false ≡ spec.test_taken N.ops
        (expression N.ops sizes.now (expr_view e.now)) on_left false state.now) }
{
    if is_other(&x.left, on_left) {
        return Ok(never());
    }
    let mut unseen = Vec::new(state.allocator());
    let y = second(
        e,
        sizes,
        state,
        Running::Right,
        after,
        false,
        wants,
        &mut unseen,
    )?;
    Ok(Second {
        value: y.value,
        when_true: unless(is_other(&x.right, true), y.when_true),
        when_false: unless(is_other(&x.right, false), y.when_false),
    })
}

/// What is left for each combination of truths that is asked for, by what the test gives on both sides. One pass for
/// the left side, and one for the right side in what each of its truths leaves, serve all.
pub fn test_taken_where<N: Num>(
    e: &Expr,
    sizes: &[u32],
    state: &State<N>,
    x: &PairValue<N>,
    asked: Combinations,
) -> Result<Taken<N>, Memory>
    requires fit { ExprIsFit (expr_view e.now) }
    requires value { x.now ≡ ((expression N.ops sizes.now (expr_view e.now)).gives Both state.now).pair }
    ensures true_true { IfOk result (λ r. asked.alike ≡ true → left_of state.now r.true_true ≡ spec.test_taken N.ops
        (expression N.ops sizes.now (expr_view e.now)) true true state.now) }
    ensures true_false { IfOk result (λ r. asked.apart ≡ true → left_of state.now r.true_false ≡ spec.test_taken N.ops
        (expression N.ops sizes.now (expr_view e.now)) true false state.now) }
    ensures false_true { IfOk result (λ r. asked.apart ≡ true → left_of state.now r.false_true ≡ spec.test_taken N.ops
        (expression N.ops sizes.now (expr_view e.now)) false true state.now) }
    ensures false_false { IfOk result (λ r. asked.alike ≡ true → left_of state.now r.false_false ≡ spec.test_taken N.ops
        (expression N.ops sizes.now (expr_view e.now)) false false state.now) }
{
    let mut unseen = Vec::new(state.allocator());
    let first = test(e, sizes, state, Running::Left, Wants::both(), &mut unseen)?;
    let after_true = Wants {
        yes: asked.alike,
        no: asked.apart,
    };
    let yes = taken_with(e, sizes, state, x, true, first.when_true, after_true)?;
    let after_false = Wants {
        yes: asked.apart,
        no: asked.alike,
    };
    let no = taken_with(e, sizes, state, x, false, first.when_false, after_false)?;
    Ok(Taken {
        true_true: yes.when_true,
        true_false: yes.when_false,
        false_true: no.when_true,
        false_false: no.when_false,
    })
}

// ---- one side alone

/// What a test gives on one side alone, and what is left where it has each truth that is asked for. The faults are
/// added to those that are there.
pub fn test_taken_by<N: Num>(
    e: &Expr,
    sizes: &[u32],
    state: &State<N>,
    side: Running,
    wants: Wants,
    faults: &mut Vec<Fault>,
) -> Result<Assumed<N>, Memory>
    requires { ExprIsFit (expr_view e.now) }
    ensures value { IfOk result (λ r. r.value
        ≡ ((expression N.ops sizes.now (expr_view e.now)).gives (alone (side_of side)) state.now).pair) }
    ensures faults { OnOk result (faults.new.items ≡ faults.old.items
        ++ ((expression N.ops sizes.now (expr_view e.now)).gives (alone (side_of side)) state.now).faults) }
    ensures yes { IfOk result (λ r. wants.yes ≡ true → left_of state.now r.when_true
        ≡ spec.test_taken_by N.ops (side_of side) (expression N.ops sizes.now (expr_view e.now)) true state.now) }
    ensures no { IfOk result (λ r. wants.no ≡ true → left_of state.now r.when_false
        ≡ spec.test_taken_by N.ops (side_of side) (expression N.ops sizes.now (expr_view e.now)) false state.now) }
{
    let x = test(e, sizes, state, side, wants, faults)?;
    let never_true = is_other(side.of(&x.value), true);
    let never_false = is_other(side.of(&x.value), false);
    Ok(Assumed {
        value: x.value,
        when_true: unless(never_true, x.when_true),
        when_false: unless(never_false, x.when_false),
    })
}
