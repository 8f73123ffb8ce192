//! Operands on one side, and the cells whose numbers or pointers they are.

ghost use Rattle.std.specs.Prelude.{◌≡◌, IfOk, IfSome, None, true};
ghost use Rattle.ep_cells.specs.States.{IsOfSort};
ghost use Rattle.ep_evaluation.specs.Evaluation as spec;
ghost use Rattle.ep_evaluation.specs.Given as given;
ghost use Rattle.ep_evaluation.specs.Narrowed as narrowed;
ghost use Rattle.ep_evaluation.specs.Narrowed.{then_with};
ghost use Rattle.ep_eval_loads.specs.After.{left_of};
ghost use Rattle.ep_eval_loads.specs.Running.{side_of};
ghost use Rattle.ep_eval_parts.specs.Limits as limits;
ghost use Rattle.ep_eval_parts.specs.Limits.{both_limited};

use crate::left::behind;
use crate::limits::{Limit, Limits, is_free, limited, number_limits, pointer_limits, value_limits};
use ep_cells::Cell;
use ep_domain::Num;
use ep_equalities::PairValue;
use ep_eval_loads::loads::{again, cell_of, places_at};
use ep_eval_loads::narrowing::if_kept;
use ep_eval_loads::{After, Running};
use ep_eval_sides::sides::{number, pointer};
use ep_int::{Cmp, IntType, Memory, Scalar};
use ep_states::State;

/// What an expression gives on a side, and the cell whose number or pointer it is.
#[derive(Drop)]
pub struct Operand<N> {
    pub value: PairValue<N>,
    pub cell: Option<Cell<N>>,
}

/// The cell of a load, where its address is sure.
pub fn load_cell<N: Num>(
    sizes: &[u32],
    state: &State<N>,
    side: Running,
    what: Scalar,
    sure: bool,
    x: &PairValue<N>,
) -> Result<Option<Cell<N>>, Memory>
    ensures value { IfOk result (λ r. r ≡ spec.cell_if N.ops sizes.now sure
        (narrowed.cell_of state.now (side_of side) what
        (spec.places_at N.ops sizes.now what state.now (given.on x.now (side_of side))))) }
    ensures sort { IfOk result (λ r. IfSome r (λ c. IsOfSort c.what c.value)) }
{
    if !sure {
        return Ok(None);
    }
    let spots = places_at(sizes, state, what, side.of(x))?;
    let c = cell_of(state, side, what, &spots)?;
    Ok(c)
}

/// The cell of a number that is converted to a type which has all its numbers.
pub fn kept_cell<N: Num>(t: IntType, c: Option<Cell<N>>) -> Option<Cell<N>>
    requires { IfSome c (λ c. IsOfSort c.what c.value) }
    ensures value { result ≡ narrowed.if_kept t c }
    ensures sort { IfSome result (λ c. IsOfSort c.what c.value) }
{
    if_kept(t, c)
}

// ---- what they leave

/// What two numbers have to be that compare so on a side.
pub fn numbers<N: Num>(
    side: Running,
    sure: bool,
    c: Cmp,
    x: &Operand<N>,
    y: &Operand<N>,
) -> Option<Limits<N>>
    ensures { result ≡ limits.limits_if sure (limits.number_limits N.ops c
        (spec.number N.ops (given.on x.now.value (side_of side)))
        (spec.number N.ops (given.on y.now.value (side_of side)))) }
{
    number_limits(
        sure,
        c,
        number(side.of(&x.value)),
        number(side.of(&y.value)),
    )
}

/// What two pointers have to be of whose comparison on a side this is the truth.
pub fn pointers<N: Num>(
    side: Running,
    sure: bool,
    c: Cmp,
    truth: bool,
    x: &Operand<N>,
    y: &Operand<N>,
) -> Option<Limits<N>>
    ensures { result ≡ limits.limits_if sure (limits.pointer_limits N.ops c truth
        (spec.pointer N.ops (given.on x.now.value (side_of side)))
        (spec.pointer N.ops (given.on y.now.value (side_of side)))) }
{
    pointer_limits(
        sure,
        c,
        truth,
        pointer(side.of(&x.value)),
        pointer(side.of(&y.value)),
    )
}

/// What is left of a state, if it is asked for, where an operand is of a truth on a side.
pub fn value_assumed<N: Num>(
    state: &State<N>,
    side: Running,
    wanted: bool,
    sure: bool,
    truth: bool,
    x: &Operand<N>,
) -> Result<After<N>, Memory>
    requires { IfSome x.now.cell (λ c. IsOfSort c.what c.value) }
    ensures { IfOk result (λ r. wanted ≡ true → left_of state.now r ≡ both_limited N.ops
        (limits.limits_if sure (limits.value_limits N.ops truth (given.on x.now.value (side_of side)).value)) x.now.cell
        (λ k. None) state.now) }
{
    if !wanted {
        return Ok(After::Nothing);
    }
    one_limited(
        state,
        value_limits(state.allocator(), sure, truth, &side.of(&x.value).value),
        &x.cell,
    )
}

fn one_limited<N: Num>(
    state: &State<N>,
    limits: Option<Limits<N>>,
    c: &Option<Cell<N>>,
) -> Result<After<N>, Memory>
    requires { IfSome c.now (λ c. IsOfSort c.what c.value) }
    ensures { IfOk result (λ r. left_of state.now r ≡ both_limited N.ops limits c.now (λ k. None) state.now) }
{
    match limits {
        None => Ok(After::Nothing),
        Some(limits) => limited(state, &limits.first, c),
    }
}

/// What is left of a state, if it is asked for, where two operands have to be so. The second one's cell is looked up
/// again in what the first one leaves.
pub fn operands_assumed<N: Num>(
    state: &State<N>,
    wanted: bool,
    limits: Option<Limits<N>>,
    x: &Operand<N>,
    y: &Operand<N>,
) -> Result<After<N>, Memory>
    requires { IfSome x.now.cell (λ c. IsOfSort c.what c.value) }
    ensures { IfOk result (λ r. wanted ≡ true → left_of state.now r
        ≡ both_limited N.ops limits x.now.cell (narrowed.again y.now.cell) state.now) }
{
    if !wanted {
        return Ok(After::Nothing);
    }
    match limits {
        None => Ok(After::Nothing),
        Some(limits) => {
            let first = limited(state, &limits.first, &x.cell)?;
            second_limited(state, first, &limits.second, &y.cell)
        }
    }
}

fn second_limited<N: Num>(
    state: &State<N>,
    first: After<N>,
    limit: &Limit<N>,
    c: &Option<Cell<N>>,
) -> Result<After<N>, Memory>
    ensures { IfOk result (λ r. left_of state.now r ≡ then_with (left_of state.now first)
        (λ l. limits.limited N.ops limit.now (narrowed.again c.now l) l)) }
{
    match first {
        After::Nothing => Ok(After::Nothing),
        After::Unchanged => again_limited(state, limit, c),
        After::Changed(s) => {
            let x = again_limited(&s, limit, c)?;
            Ok(behind(s, x))
        }
    }
}

fn again_limited<N: Num>(
    state: &State<N>,
    limit: &Limit<N>,
    c: &Option<Cell<N>>,
) -> Result<After<N>, Memory>
    ensures { IfOk result (λ r. left_of state.now r
        ≡ limits.limited N.ops limit.now (narrowed.again c.now state.now) state.now) }
{
    if is_free(limit) {
        return Ok(After::Unchanged);
    }
    let c = again(state, c)?;
    limited(state, limit, &c)
}
