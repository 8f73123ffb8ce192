//! Expressions and places: what they give in a mode, and what is left of a state where a test has a truth. On one side
//! a pass gives the value and what is left for both truths, so that no part is evaluated again at each level.

ghost use Rattle.std.specs.Prelude.{◌≡◌, IfOk, IfSome, Some, true, false};
ghost use Rattle.ep_core.specs.Runs.{left, right};
ghost use Rattle.ep_core.specs.View.{expr_view, place_view};
ghost use Rattle.ep_cells.specs.States.{IsOfSort};
ghost use Rattle.ep_evaluation.specs.Evaluation as spec;
ghost use Rattle.ep_evaluation.specs.Evaluation.{expression, place};
ghost use Rattle.ep_evaluation.specs.Given.{alone, on};
ghost use Rattle.ep_evaluation.specs.Narrowed.{then_with, again};
ghost use Rattle.ep_evaluation.specs.Narrowed as narrowed;
ghost use Rattle.ep_eval_fits.specs.Fitting.{ExprIsFit, PlaceIsFit};
ghost use Rattle.ep_eval_sides.specs.Sides.{faultless};
ghost use Rattle.ep_eval_forms.specs.After.{left_of};
ghost use Rattle.ep_eval_forms.specs.Running.{side_of};
ghost use Rattle.ep_eval.specs.Forms.{is_branching, is_joined, is_of_two};
ghost use Rattle.ep_eval_forms.specs.Limits as limits;
ghost use Rattle.ep_eval_forms.specs.Limits.{both_limited};
ghost use Rattle.ep_eval_forms.specs.Results.{IsFirst, IsGiven, IsLater, IsOperand, IsSecond, IsTested};
ghost use Rattle.ep_eval_forms.specs.Steps.{given_later, state_where};

use ep_core::tree::{Expr, Place};
use ep_domain::Num;
use ep_equalities::{Fault, Mode, PairValue};
use ep_eval_forms::asks::{turned, with_false, with_true};
use ep_eval_forms::cells::{converted_operand, loaded};
use ep_eval_forms::pieces::left::{Assumed, Second, Wants, behind, left_where, second_behind};
use ep_eval_forms::pieces::modes::{First, mode_where};
use ep_eval_forms::pieces::operands::{Operand, numbers, operands_assumed};
use ep_eval_forms::pieces::sure::are_sure;
use ep_eval_forms::pieces::typed::{computed, converted};
use ep_eval_forms::pieces::verdicts::has_one_truth;
use ep_eval_forms::pieces::{After, Running, load};
use ep_eval_forms::tested::{conjunction, disjunction, opposite, pointers_compared, value_tested};
use ep_eval_places::elements::element;
use ep_eval_places::moves::{member, sum};
use ep_eval_sides::operators::{
    block, chosen, comparison, constant, negation, null, pointer_comparison, same_pointer, short,
};
use ep_eval_sides::sides::{may_be, when_not};
use ep_int::{Cmp, Memory};
use ep_states::State;

/// What an expression gives in a mode.
#[cycle(evaluate)]
#[tactic(auto, using(crate::proofs::Plain::strictly))]
pub(crate) fn eval<N: Num>(
    e: &Expr,
    sizes: &[u32],
    state: &State<N>,
    mode: Mode,
    faults: &mut Vec<Fault>,
) -> Result<PairValue<N>, Memory>
    requires fit { ExprIsFit (expr_view e.now) }
    ensures { IfOk result (λ r. IsGiven (expression N.ops sizes.now (expr_view e.now)).gives mode state.now
        faults.old.items faults.new.items r) }
{
    match e {
        Expr::And(a, b) => {
            let x = first(a, sizes, state, mode, Wants::when_true(), faults)?;
            let y = later(b, sizes, state, x.mode_true, x.when_true, faults)?;
            Ok(short(true, mode, &x.value, y))
        }
        Expr::Or(a, b) => {
            let x = first(a, sizes, state, mode, Wants::when_false(), faults)?;
            let y = later(b, sizes, state, x.mode_false, x.when_false, faults)?;
            Ok(short(false, mode, &x.value, y))
        }
        Expr::Cond(c, a, b) => {
            let x = first(c, sizes, state, mode, Wants::both(), faults)?;
            let y = later(a, sizes, state, x.mode_true, x.when_true, faults)?;
            let z = later(b, sizes, state, x.mode_false, x.when_false, faults)?;
            chosen(mode, &x.value, y, z)
        }
        _ => eval_strict(e, sizes, state, mode, faults),
    }
}

// An expression whose operands are all evaluated.
#[cycle(evaluate)]
#[tactic(auto, using(crate::proofs::Plain::of_two))]
fn eval_strict<N: Num>(
    e: &Expr,
    sizes: &[u32],
    state: &State<N>,
    mode: Mode,
    faults: &mut Vec<Fault>,
) -> Result<PairValue<N>, Memory>
    requires fit { ExprIsFit (expr_view e.now) }
    requires strict { is_branching (expr_view e.now) ≡ false }
    ensures { IfOk result (λ r. IsGiven (expression N.ops sizes.now (expr_view e.now)).gives mode state.now
        faults.old.items faults.new.items r) }
{
    match e {
        Expr::Const(t, v) => Ok(constant(mode, *t, *v)),
        Expr::Null => Ok(null(state.allocator(), mode)),
        Expr::Load(what, a) => {
            let x = address(a, sizes, state, mode, faults)?;
            load(mode, sizes, state, *what, &x, faults)
        }
        Expr::AddrOf(a) => {
            let x = address(a, sizes, state, mode, faults)?;
            same_pointer(mode, &x)
        }
        Expr::Convert(t, a) => {
            let x = eval(a, sizes, state, mode, faults)?;
            Ok(converted(a, sizes, state, mode, *t, &x))
        }
        Expr::Not(a) => {
            let x = eval(a, sizes, state, mode, faults)?;
            Ok(negation(mode, &x))
        }
        Expr::Cast(a) => {
            let x = eval(a, sizes, state, mode, faults)?;
            same_pointer(mode, &x)
        }
        _ => eval_two(e, sizes, state, mode, faults),
    }
}

// An expression of two operands.
#[cycle(evaluate)]
fn eval_two<N: Num>(
    e: &Expr,
    sizes: &[u32],
    state: &State<N>,
    mode: Mode,
    faults: &mut Vec<Fault>,
) -> Result<PairValue<N>, Memory>
    requires fit { ExprIsFit (expr_view e.now) }
    requires two { is_of_two (expr_view e.now) ≡ true }
    ensures { IfOk result (λ r. IsGiven (expression N.ops sizes.now (expr_view e.now)).gives mode state.now
        faults.old.items faults.new.items r) }
{
    match e {
        Expr::Bin(op, t, a, b) => {
            let x = eval(a, sizes, state, mode, faults)?;
            let y = eval(b, sizes, state, mode, faults)?;
            computed(a, sizes, state, mode, *op, *t, &x, &y, faults)
        }
        Expr::Compare(c, _, a, b) => {
            let x = eval(a, sizes, state, mode, faults)?;
            let y = eval(b, sizes, state, mode, faults)?;
            Ok(comparison(mode, *c, &x, &y))
        }
        Expr::PtrCompare(c, a, b) => {
            let x = eval(a, sizes, state, mode, faults)?;
            let y = eval(b, sizes, state, mode, faults)?;
            pointer_comparison(mode, *c, &x, &y, faults)
        }
        Expr::PtrAdd(unit, back, a, n) => {
            let x = eval(a, sizes, state, mode, faults)?;
            let y = eval(n, sizes, state, mode, faults)?;
            sum(mode, sizes, *unit, *back, &x, &y, faults)
        }
        _ => unreachable!(),
    }
}

/// What a place gives in a mode: its address.
#[cycle(evaluate)]
pub(crate) fn address<N: Num>(
    a: &Place,
    sizes: &[u32],
    state: &State<N>,
    mode: Mode,
    faults: &mut Vec<Fault>,
) -> Result<PairValue<N>, Memory>
    requires fit { PlaceIsFit (place_view a.now) }
    ensures { IfOk result (λ r. IsGiven (place N.ops sizes.now (place_view a.now)) mode state.now faults.old.items
        faults.new.items r) }
{
    match a {
        Place::Block(b) => block(state.allocator(), mode, *b),
        Place::Deref(e) => {
            let x = eval(e, sizes, state, mode, faults)?;
            same_pointer(mode, &x)
        }
        Place::Member(of, offset) => {
            let x = address(of, sizes, state, mode, faults)?;
            member(mode, sizes, *offset, &x, faults)
        }
        Place::Element(of, bound, unit, i) => {
            let x = address(of, sizes, state, mode, faults)?;
            let y = eval(i, sizes, state, mode, faults)?;
            element(state.allocator(), mode, *bound, *unit, &x, &y, faults)
        }
    }
}

// ---- operands that are evaluated later, if at all

#[cycle(evaluate)]
fn first<N: Num>(
    e: &Expr,
    sizes: &[u32],
    state: &State<N>,
    mode: Mode,
    wants: Wants,
    faults: &mut Vec<Fault>,
) -> Result<First<N>, Memory>
    requires fit { ExprIsFit (expr_view e.now) }
    ensures { IfOk result (λ r. IsFirst N.ops (expression N.ops sizes.now (expr_view e.now)) mode state.now
        wants faults.old.items faults.new.items r) }
{
    match mode {
        Mode::Both => first_of_both(e, sizes, state, wants, faults),
        Mode::Left => first_alone(e, sizes, state, Running::Left, wants, faults),
        Mode::Right => first_alone(e, sizes, state, Running::Right, wants, faults),
    }
}

// One side runs: one pass gives the value and what is left for both truths.
#[cycle(evaluate)]
fn first_alone<N: Num>(
    e: &Expr,
    sizes: &[u32],
    state: &State<N>,
    side: Running,
    wants: Wants,
    faults: &mut Vec<Fault>,
) -> Result<First<N>, Memory>
    requires fit { ExprIsFit (expr_view e.now) }
    ensures { IfOk result (λ r. IsFirst N.ops (expression N.ops sizes.now (expr_view e.now)) (alone (side_of side))
        state.now wants faults.old.items faults.new.items r) }
{
    let x = test(e, sizes, state, side, wants, faults)?;
    let mode_true = mode_where(side.mode(), &x.value, true);
    let mode_false = mode_where(side.mode(), &x.value, false);
    Ok(First {
        value: x.value,
        mode_true,
        when_true: x.when_true,
        mode_false,
        when_false: x.when_false,
    })
}

#[cycle(evaluate)]
fn first_of_both<N: Num>(
    e: &Expr,
    sizes: &[u32],
    state: &State<N>,
    wants: Wants,
    faults: &mut Vec<Fault>,
) -> Result<First<N>, Memory>
    requires fit { ExprIsFit (expr_view e.now) }
    ensures { IfOk result (λ r. IsFirst N.ops (expression N.ops sizes.now (expr_view e.now)) Mode.Both state.now
        wants faults.old.items faults.new.items r) }
{
    let value = eval(e, sizes, state, Mode::Both, faults)?;
    let stable = has_one_truth(Mode::Both, &value);
    let mode_true = mode_where(Mode::Both, &value, true);
    let mode_false = mode_where(Mode::Both, &value, false);
    let when_true = next_state(e, sizes, state, wants.yes, stable, mode_true, true)?;
    let when_false = next_state(e, sizes, state, wants.no, stable, mode_false, false)?;
    Ok(First {
        value,
        mode_true,
        when_true,
        mode_false,
        when_false,
    })
}

// What is left for the next operand, where the first may have the truth on these sides.
#[cycle(evaluate)]
fn next_state<N: Num>(
    e: &Expr,
    sizes: &[u32],
    state: &State<N>,
    wanted: bool,
    stable: bool,
    mode: Option<Mode>,
    truth: bool,
) -> Result<After<N>, Memory>
    requires fit { ExprIsFit (expr_view e.now) }
    ensures { IfOk result (λ r. wanted ≡ true → left_of state.now r
        ≡ state_where N.ops (expression N.ops sizes.now (expr_view e.now)) stable mode truth state.now) }
{
    if !wanted {
        return Ok(After::Nothing);
    }
    match mode {
        None => Ok(After::Nothing),
        Some(mode) => state_in(e, sizes, state, stable, mode, truth),
    }
}

#[cycle(evaluate)]
fn state_in<N: Num>(
    e: &Expr,
    sizes: &[u32],
    state: &State<N>,
    stable: bool,
    mode: Mode,
    truth: bool,
) -> Result<After<N>, Memory>
    requires fit { ExprIsFit (expr_view e.now) }
    ensures { IfOk result (λ r. left_of state.now r
        ≡ spec.state_for N.ops (expression N.ops sizes.now (expr_view e.now)) stable mode truth state.now) }
{
    if !stable {
        return Ok(After::Unchanged);
    }
    match mode {
        Mode::Both => assumed_on_both(e, sizes, state, truth, truth),
        Mode::Left => assumed_on(e, sizes, state, Running::Left, truth),
        Mode::Right => assumed_on(e, sizes, state, Running::Right, truth),
    }
}

/// What is left where an expression has these truths, the left side's first.
#[cycle(evaluate)]
pub fn assumed_on_both<N: Num>(
    e: &Expr,
    sizes: &[u32],
    state: &State<N>,
    on_left: bool,
    on_right: bool,
) -> Result<After<N>, Memory>
    requires fit { ExprIsFit (expr_view e.now) }
    ensures { IfOk result (λ r. left_of state.now r
        ≡ then_with ((expression N.ops sizes.now (expr_view e.now)).assumes left on_left state.now)
        ((expression N.ops sizes.now (expr_view e.now)).assumes right on_right)) }
{
    let first = assumed_on(e, sizes, state, Running::Left, on_left)?;
    match first {
        After::Nothing => Ok(After::Nothing),
        After::Unchanged => assumed_on(e, sizes, state, Running::Right, on_right),
        After::Changed(s) => {
            let x = assumed_on(e, sizes, &s, Running::Right, on_right)?;
            Ok(behind(s, x))
        }
    }
}

#[cycle(evaluate)]
fn assumed_on<N: Num>(
    e: &Expr,
    sizes: &[u32],
    state: &State<N>,
    side: Running,
    truth: bool,
) -> Result<After<N>, Memory>
    requires fit { ExprIsFit (expr_view e.now) }
    ensures { IfOk result (λ r. left_of state.now r
        ≡ (expression N.ops sizes.now (expr_view e.now)).assumes (side_of side) truth state.now) }
{
    let mut unseen = Vec::new(state.allocator());
    let wants = Wants {
        yes: truth,
        no: !truth,
    };
    let x = test(e, sizes, state, side, wants, &mut unseen)?;
    Ok(left_where(x, truth))
}

// A later operand, on the sides on which it is evaluated.
#[cycle(evaluate)]
fn later<N: Num>(
    e: &Expr,
    sizes: &[u32],
    state: &State<N>,
    mode: Option<Mode>,
    after: After<N>,
    faults: &mut Vec<Fault>,
) -> Result<Option<PairValue<N>>, Memory>
    requires fit { ExprIsFit (expr_view e.now) }
    ensures { IfOk result (λ r. IsLater N.ops (given_later N.ops (expression N.ops sizes.now (expr_view e.now)) mode
        (left_of state.now after)) faults.old.items faults.new.items r) }
{
    match mode {
        None => Ok(None),
        Some(mode) => later_in(e, sizes, state, mode, after, faults),
    }
}

#[cycle(evaluate)]
fn later_in<N: Num>(
    e: &Expr,
    sizes: &[u32],
    state: &State<N>,
    mode: Mode,
    after: After<N>,
    faults: &mut Vec<Fault>,
) -> Result<Option<PairValue<N>>, Memory>
    requires fit { ExprIsFit (expr_view e.now) }
    ensures { IfOk result (λ r. IsLater N.ops (spec.given_in N.ops (expression N.ops sizes.now (expr_view e.now)) mode
        (left_of state.now after)) faults.old.items faults.new.items r) }
{
    match after {
        After::Nothing => Ok(None),
        After::Unchanged => {
            let y = eval(e, sizes, state, mode, faults)?;
            Ok(Some(y))
        }
        After::Changed(s) => {
            let y = eval(e, sizes, &s, mode, faults)?;
            Ok(Some(y))
        }
    }
}

// ---- tests on one side

/// What an expression gives on one side alone, and what is left where it is of each truth that is asked for.
#[cycle(evaluate)]
#[tactic(auto, using(crate::proofs::Plain::single))]
pub(crate) fn test<N: Num>(
    e: &Expr,
    sizes: &[u32],
    state: &State<N>,
    side: Running,
    wants: Wants,
    faults: &mut Vec<Fault>,
) -> Result<Assumed<N>, Memory>
    requires fit { ExprIsFit (expr_view e.now) }
    ensures { IfOk result (λ r. IsTested (expression N.ops sizes.now (expr_view e.now)) (side_of side) state.now
        wants faults.old.items faults.new.items r) }
{
    match e {
        Expr::And(a, b) => {
            let x = test(a, sizes, state, side, with_true(wants), faults)?;
            let runs = may_be(&side.of(&x.value).value, true);
            let y = second(b, sizes, state, side, x.when_true, runs, wants, faults)?;
            let when_false = x.when_false;
            conjunction(state, side, wants, &x.value, when_false, y)
        }
        Expr::Or(a, b) => {
            let x = test(a, sizes, state, side, with_false(wants), faults)?;
            let runs = may_be(&side.of(&x.value).value, false);
            let y = second(b, sizes, state, side, x.when_false, runs, wants, faults)?;
            let when_true = x.when_true;
            disjunction(state, side, wants, &x.value, when_true, y)
        }
        Expr::Not(a) => {
            let x = test(a, sizes, state, side, turned(wants), faults)?;
            Ok(opposite(side, x))
        }
        _ => test_single(e, sizes, state, side, wants, faults),
    }
}

// A test that isn't made of others.
#[cycle(evaluate)]
fn test_single<N: Num>(
    e: &Expr,
    sizes: &[u32],
    state: &State<N>,
    side: Running,
    wants: Wants,
    faults: &mut Vec<Fault>,
) -> Result<Assumed<N>, Memory>
    requires fit { ExprIsFit (expr_view e.now) }
    requires single { is_joined (expr_view e.now) ≡ false }
    ensures { IfOk result (λ r. IsTested (expression N.ops sizes.now (expr_view e.now)) (side_of side) state.now
        wants faults.old.items faults.new.items r) }
{
    match e {
        Expr::Compare(c, _, a, b) => {
            let from = faults.len();
            let x = operand(a, sizes, state, side, faults)?;
            let y = operand(b, sizes, state, side, faults)?;
            let sure = are_sure(faults, from);
            compared(state, side, wants, c, sure, x, y)
        }
        Expr::PtrCompare(c, a, b) => {
            let from = faults.len();
            let x = operand(a, sizes, state, side, faults)?;
            let y = operand(b, sizes, state, side, faults)?;
            let sure = are_sure(faults, from);
            pointers_compared(state, side, wants, *c, sure, x, y, faults)
        }
        _ => test_value(e, sizes, state, side, wants, faults),
    }
}

// A comparison of two numbers.
fn compared<N: Num>(
    state: &State<N>,
    side: Running,
    wants: Wants,
    c: &Cmp,
    sure: bool,
    x: Operand<N>,
    y: Operand<N>,
) -> Result<Assumed<N>, Memory>
    requires { IfSome x.cell (λ a. IsOfSort a.what a.value) }
    ensures value { IfOk result (λ r. r.value
        ≡ (spec.compare_given N.ops c.now (alone (side_of side)) (faultless x.value) (faultless y.value)).pair) }
    ensures yes { IfOk result (λ r. wants.yes ≡ true → left_of state.now r.when_true ≡ both_limited N.ops
        (limits.limits_if sure (limits.number_limits N.ops (narrowed.when_not c.now true)
        (spec.number N.ops (on x.value (side_of side))) (spec.number N.ops (on y.value (side_of side))))) x.cell
        (again y.cell) state.now) }
    ensures no { IfOk result (λ r. wants.no ≡ true → left_of state.now r.when_false ≡ both_limited N.ops
        (limits.limits_if sure (limits.number_limits N.ops (narrowed.when_not c.now false)
        (spec.number N.ops (on x.value (side_of side))) (spec.number N.ops (on y.value (side_of side))))) x.cell
        (again y.cell) state.now) }
{
    let yes = numbers(side, sure, when_not(*c, true), &x, &y);
    let when_true = operands_assumed(state, wants.yes, yes, &x, &y)?;
    let no = numbers(side, sure, when_not(*c, false), &x, &y);
    let when_false = operands_assumed(state, wants.no, no, &x, &y)?;
    Ok(Assumed {
        value: comparison(side.mode(), *c, &x.value, &y.value),
        when_true,
        when_false,
    })
}

// A test without a rule of its own: a number is compared with 0, a pointer with null.
#[cycle(evaluate)]
fn test_value<N: Num>(
    e: &Expr,
    sizes: &[u32],
    state: &State<N>,
    side: Running,
    wants: Wants,
    faults: &mut Vec<Fault>,
) -> Result<Assumed<N>, Memory>
    requires fit { ExprIsFit (expr_view e.now) }
    ensures { IfOk result (λ r. IsTested (spec.with_cell N.ops (expression N.ops sizes.now (expr_view e.now)).gives
        (expression N.ops sizes.now (expr_view e.now)).cell) (side_of side) state.now wants faults.old.items
        faults.new.items r) }
{
    let from = faults.len();
    let x = operand(e, sizes, state, side, faults)?;
    let sure = are_sure(faults, from);
    value_tested(state, side, wants, sure, x)
}

/// The second operand of `&&` or `||`, in what the first one leaves. Where it isn't evaluated, it has no faults.
#[cycle(evaluate)]
pub(crate) fn second<N: Num>(
    e: &Expr,
    sizes: &[u32],
    state: &State<N>,
    side: Running,
    after: After<N>,
    runs: bool,
    wants: Wants,
    faults: &mut Vec<Fault>,
) -> Result<Second<N>, Memory>
    requires fit { ExprIsFit (expr_view e.now) }
    ensures { IfOk result (λ r. IsSecond N.ops (expression N.ops sizes.now (expr_view e.now)) (side_of side) runs
        (left_of state.now after) state.now wants faults.old.items faults.new.items r) }
{
    match after {
        After::Nothing => Ok(Second {
            value: None,
            when_true: After::Nothing,
            when_false: After::Nothing,
        }),
        After::Unchanged => second_in(e, sizes, state, side, runs, wants, faults),
        After::Changed(s) => {
            let x = second_in(e, sizes, &s, side, runs, wants, faults)?;
            second_behind(s, x)
        }
    }
}

#[cycle(evaluate)]
fn second_in<N: Num>(
    e: &Expr,
    sizes: &[u32],
    state: &State<N>,
    side: Running,
    runs: bool,
    wants: Wants,
    faults: &mut Vec<Fault>,
) -> Result<Second<N>, Memory>
    requires fit { ExprIsFit (expr_view e.now) }
    ensures { IfOk result (λ r. IsSecond N.ops (expression N.ops sizes.now (expr_view e.now)) (side_of side) runs
        (Some state.now) state.now wants faults.old.items faults.new.items r) }
{
    if runs {
        let x = test(e, sizes, state, side, wants, faults)?;
        return Ok(Second {
            value: Some(x.value),
            when_true: x.when_true,
            when_false: x.when_false,
        });
    }
    let mut unseen = Vec::new(state.allocator());
    let x = test(e, sizes, state, side, wants, &mut unseen)?;
    Ok(Second {
        value: None,
        when_true: x.when_true,
        when_false: x.when_false,
    })
}

// ---- operands, and their cells

#[cycle(evaluate)]
fn operand<N: Num>(
    e: &Expr,
    sizes: &[u32],
    state: &State<N>,
    side: Running,
    faults: &mut Vec<Fault>,
) -> Result<Operand<N>, Memory>
    requires fit { ExprIsFit (expr_view e.now) }
    ensures { IfOk result (λ r. IsOperand (expression N.ops sizes.now (expr_view e.now)) (side_of side)
        state.now faults.old.items faults.new.items r) }
{
    match e {
        Expr::Load(what, a) => {
            let from = faults.len();
            let x = address(a, sizes, state, side.mode(), faults)?;
            let sure = are_sure(faults, from);
            loaded(sizes, state, side, *what, sure, &x, faults)
        }
        Expr::Convert(t, a) => {
            let x = operand(a, sizes, state, side, faults)?;
            Ok(converted_operand(a, sizes, state, side, *t, x))
        }
        _ => without_cell(e, sizes, state, side, faults),
    }
}

#[cycle(evaluate)]
fn without_cell<N: Num>(
    e: &Expr,
    sizes: &[u32],
    state: &State<N>,
    side: Running,
    faults: &mut Vec<Fault>,
) -> Result<Operand<N>, Memory>
    requires fit { ExprIsFit (expr_view e.now) }
    ensures { IfOk result (λ r. IsOperand (spec.plain N.ops (expression N.ops sizes.now (expr_view e.now)).gives)
        (side_of side) state.now faults.old.items faults.new.items r) }
{
    let value = eval(e, sizes, state, side.mode(), faults)?;
    Ok(Operand { value, cell: None })
}
