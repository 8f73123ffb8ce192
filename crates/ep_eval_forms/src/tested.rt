//! What tests give on one side, and what they leave, by what their operands give.

ghost use Rattle.std.specs.Prelude.{◌≡◌, ◌++◌, IfOk, IfSome, OnOk, None, true, false};
ghost use Rattle.ep_cells.specs.States.{IsOfSort};
ghost use Rattle.ep_evaluation.specs.Evaluation as spec;
ghost use Rattle.ep_evaluation.specs.Given.{alone, on};
ghost use Rattle.ep_evaluation.specs.Narrowed as narrowed;
ghost use Rattle.ep_eval_fits.specs.Likeness.{IfLike};
ghost use Rattle.ep_eval_sides.specs.Sides.{faultless, faultless_if};
ghost use Rattle.ep_eval_parts.specs.After.{left_of};
ghost use Rattle.ep_eval_parts.specs.Running.{side_of};
ghost use Rattle.ep_eval_parts.specs.Limits as limits;
ghost use Rattle.ep_eval_parts.specs.Limits.{both_limited};

use ep_domain::Num;
use ep_equalities::{Fault, PairValue};
use ep_eval_parts::left::{Assumed, Second, Wants, either_if};
use ep_eval_parts::operands::{Operand, operands_assumed, pointers, value_assumed};
use ep_eval_parts::{After, Running};
use ep_eval_sides::operators::{negation, pointer_comparison, short};
use ep_int::{Cmp, Memory};
use ep_states::State;

// ---- tests that are made of others

/// `!`
pub fn opposite<N: Num>(side: Running, x: Assumed<N>) -> Assumed<N>
    ensures value { result.value ≡ (spec.not_given N.ops (alone (side_of side)) (faultless x.value)).pair }
    ensures yes { result.when_true ≡ x.when_false }
    ensures no { result.when_false ≡ x.when_true }
{
    Assumed {
        value: negation(side.mode(), &x.value),
        when_true: x.when_false,
        when_false: x.when_true,
    }
}

/// `&&`, by what the first operand leaves where it is false, and what both leave.
pub fn conjunction<N: Num>(
    state: &State<N>,
    side: Running,
    wants: Wants,
    x: &PairValue<N>,
    first: After<N>,
    y: Second<N>,
) -> Result<Assumed<N>, Memory>
    requires first { wants.no ≡ true → IfLike state.now (left_of state.now first) }
    requires second { wants.no ≡ true → IfLike state.now (left_of state.now y.when_false) }
    ensures value { IfOk result (λ r. r.value
        ≡ (spec.short_given N.ops true (alone (side_of side)) (faultless x.now) (faultless_if y.value)).pair) }
    ensures yes { IfOk result (λ r. r.when_true ≡ y.when_true) }
    ensures no { IfOk result (λ r. wants.no ≡ true → left_of state.now r.when_false
        ≡ narrowed.either_of N.ops (left_of state.now first) (left_of state.now y.when_false)) }
{
    let when_false = either_if(wants.no, state, first, y.when_false)?;
    Ok(Assumed {
        value: short(true, side.mode(), x, y.value),
        when_true: y.when_true,
        when_false,
    })
}

/// `||`, by what the first operand leaves where it is true, and what both leave.
pub fn disjunction<N: Num>(
    state: &State<N>,
    side: Running,
    wants: Wants,
    x: &PairValue<N>,
    first: After<N>,
    y: Second<N>,
) -> Result<Assumed<N>, Memory>
    requires first { wants.yes ≡ true → IfLike state.now (left_of state.now first) }
    requires second { wants.yes ≡ true → IfLike state.now (left_of state.now y.when_true) }
    ensures value { IfOk result (λ r. r.value
        ≡ (spec.short_given N.ops false (alone (side_of side)) (faultless x.now) (faultless_if y.value)).pair) }
    ensures yes { IfOk result (λ r. wants.yes ≡ true → left_of state.now r.when_true
        ≡ narrowed.either_of N.ops (left_of state.now first) (left_of state.now y.when_true)) }
    ensures no { IfOk result (λ r. r.when_false ≡ y.when_false) }
{
    let when_true = either_if(wants.yes, state, first, y.when_true)?;
    Ok(Assumed {
        value: short(false, side.mode(), x, y.value),
        when_true,
        when_false: y.when_false,
    })
}

// ---- tests of values

/// A comparison of two pointers, whose faults are added to those that are there.
pub fn pointers_compared<N: Num>(
    state: &State<N>,
    side: Running,
    wants: Wants,
    c: Cmp,
    sure: bool,
    x: Operand<N>,
    y: Operand<N>,
    faults: &mut Vec<Fault>,
) -> Result<Assumed<N>, Memory>
    requires { IfSome x.cell (λ a. IsOfSort a.what a.value) }
    ensures value { IfOk result (λ r. r.value
        ≡ (spec.pointers_given N.ops c (alone (side_of side)) (faultless x.value) (faultless y.value)).pair) }
    ensures faults { OnOk result (faults.new.items ≡ faults.old.items
        ++ (spec.pointers_given N.ops c (alone (side_of side)) (faultless x.value) (faultless y.value)).faults) }
    ensures yes { IfOk result (λ r. wants.yes ≡ true → left_of state.now r.when_true ≡ both_limited N.ops
        (limits.limits_if sure (limits.pointer_limits N.ops c true (spec.pointer N.ops (on x.value (side_of side)))
        (spec.pointer N.ops (on y.value (side_of side))))) x.cell (narrowed.again y.cell) state.now) }
    ensures no { IfOk result (λ r. wants.no ≡ true → left_of state.now r.when_false ≡ both_limited N.ops
        (limits.limits_if sure (limits.pointer_limits N.ops c false (spec.pointer N.ops (on x.value (side_of side)))
        (spec.pointer N.ops (on y.value (side_of side))))) x.cell (narrowed.again y.cell) state.now) }
{
    let yes = pointers(side, sure, c, true, &x, &y);
    let when_true = operands_assumed(state, wants.yes, yes, &x, &y)?;
    let no = pointers(side, sure, c, false, &x, &y);
    let when_false = operands_assumed(state, wants.no, no, &x, &y)?;
    let value = pointer_comparison(side.mode(), c, &x.value, &y.value, faults)?;
    Ok(Assumed {
        value,
        when_true,
        when_false,
    })
}

/// A value alone: a number is compared with 0, a pointer with null.
pub fn value_tested<N: Num>(
    state: &State<N>,
    side: Running,
    wants: Wants,
    sure: bool,
    x: Operand<N>,
) -> Result<Assumed<N>, Memory>
    requires { IfSome x.cell (λ a. IsOfSort a.what a.value) }
    ensures value { IfOk result (λ r. r.value ≡ x.value) }
    ensures yes { IfOk result (λ r. wants.yes ≡ true → left_of state.now r.when_true ≡ both_limited N.ops
        (limits.limits_if sure (limits.value_limits N.ops true (on x.value (side_of side)).value)) x.cell (λ k. None)
        state.now) }
    ensures no { IfOk result (λ r. wants.no ≡ true → left_of state.now r.when_false ≡ both_limited N.ops
        (limits.limits_if sure (limits.value_limits N.ops false (on x.value (side_of side)).value)) x.cell (λ k. None)
        state.now) }
{
    let when_true = value_assumed(state, side, wants.yes, sure, true, &x)?;
    let when_false = value_assumed(state, side, wants.no, sure, false, &x)?;
    Ok(Assumed {
        value: x.value,
        when_true,
        when_false,
    })
}
