//! What a test gives, and what is left of a state that itself is left of another.

ghost use Rattle.std.specs.Prelude.{◌≡◌, IfOk, true, false};
ghost use Rattle.ep_eval_fits.specs.Likeness.{IfLike};
ghost use Rattle.ep_evaluation.specs.Narrowed as narrowed;
ghost use Rattle.ep_cells.specs.States.{Known};
ghost use Rattle.ep_eval_loads.specs.After.{left_of};

use ep_domain::Num;
use ep_equalities::PairValue;
use ep_eval_loads::{After, either};
use ep_int::Memory;
use ep_states::State;

/// The truths for which what is left is asked for.
#[derive(Clone, Copy)]
pub struct Wants {
    pub yes: bool,
    pub no: bool,
}

impl Wants {
    /// What is left where it is true.
    pub fn when_true() -> Self
        ensures { result.yes ≡ true }
    {
        Wants {
            yes: true,
            no: false,
        }
    }

    /// What is left where it is false.
    pub fn when_false() -> Self
        ensures { result.no ≡ true }
    {
        Wants {
            yes: false,
            no: true,
        }
    }

    /// What is left in both cases.
    pub fn both() -> Self
        ensures yes { result.yes ≡ true }
        ensures no { result.no ≡ true }
    {
        Wants {
            yes: true,
            no: true,
        }
    }
}

/// What an expression gives on a side alone, and what is left where it is of each truth that is asked for.
#[derive(Drop)]
pub struct Assumed<N> {
    pub value: PairValue<N>,
    pub when_true: After<N>,
    pub when_false: After<N>,
}

/// What a second operand gives, if it is evaluated, and what both operands leave.
#[derive(Drop)]
pub struct Second<N> {
    pub value: Option<PairValue<N>>,
    pub when_true: After<N>,
    pub when_false: After<N>,
}

/// What is left where the truth is this one.
pub fn left_where<N: Num>(x: Assumed<N>, truth: bool) -> After<N>
    ensures yes { truth ≡ true → result ≡ x.when_true }
    ensures no { truth ≡ false → result ≡ x.when_false }
{
    if truth { x.when_true } else { x.when_false }
}

/// What is left of a state, as what is left of any other.
pub fn behind<N: Num>(s: State<N>, x: After<N>) -> After<N>
    ensures { (k : Known N) → left_of k result ≡ left_of s x }
{
    match x {
        After::Nothing => After::Nothing,
        After::Unchanged => After::Changed(s),
        After::Changed(t) => After::Changed(t),
    }
}

// The same, where the state is needed further.
fn copied_behind<N: Num>(s: &State<N>, x: After<N>) -> Result<After<N>, Memory>
    ensures { IfOk result (λ r. (k : Known N) → left_of k r ≡ left_of s.now x) }
{
    match x {
        After::Nothing => Ok(After::Nothing),
        After::Unchanged => {
            let same = s.copy()?;
            Ok(After::Changed(same))
        }
        After::Changed(t) => Ok(After::Changed(t)),
    }
}

/// What both operands leave, by what the second one leaves of what the first one left.
pub fn second_behind<N: Num>(s: State<N>, x: Second<N>) -> Result<Second<N>, Memory>
    ensures value { IfOk result (λ r. r.value ≡ x.value) }
    ensures yes { IfOk result (λ r. (k : Known N) → left_of k r.when_true ≡ left_of s x.when_true) }
    ensures no { IfOk result (λ r. (k : Known N) → left_of k r.when_false ≡ left_of s x.when_false) }
{
    let when_false = copied_behind(&s, x.when_false)?;
    let when_true = behind(s, x.when_true);
    Ok(Second {
        value: x.value,
        when_true,
        when_false,
    })
}

/// What one or the other leaves, where it is asked for.
pub fn either_if<N: Num>(
    wanted: bool,
    state: &State<N>,
    x: After<N>,
    y: After<N>,
) -> Result<After<N>, Memory>
    requires left { wanted ≡ true → IfLike state.now (left_of state.now x) }
    requires right { wanted ≡ true → IfLike state.now (left_of state.now y) }
    ensures { IfOk result (λ r. wanted ≡ true → left_of state.now r
        ≡ narrowed.either_of N.ops (left_of state.now x) (left_of state.now y)) }
{
    if wanted {
        return either(state, x, y);
    }
    Ok(After::Nothing)
}
