//! The cell of a load gets a narrower value.

ghost use Rattle.std.specs.Prelude.{◌≡◌, IfOk, IfSome, Some, false};
ghost use Rattle.ep_cells.specs.States.{IsOfSort};
ghost use Rattle.ep_cell_ranges.specs.Narrow.{with_value};
ghost use Rattle.ep_evaluation.specs.Narrowed as narrowed;
ghost use Rattle.ep_eval_loads.specs.After.{left_of};

use crate::after::After;
use ep_cells::{Cell, Value};
use ep_domain::Num;
use ep_int::{IntType, Memory, Scalar, greatest, least};
use ep_pointers::PtrValue;
use ep_states::State;

fn with_value<N: Num>(state: &State<N>, c: &Cell<N>, v: Value<N>) -> Result<After<N>, Memory>
    requires { IsOfSort c.now.what (Some v) }
    ensures { IfOk result (λ r. left_of state.now r ≡ Some (with_value c.now v state.now)) }
{
    let mut next = state.copy()?;
    next.set_value(c.side, c.block, c.offset, c.what, v)?;
    Ok(After::Changed(next))
}

// ---- numbers

fn number_met<N: Num>(state: &State<N>, c: &Cell<N>, m: &N, n: &N) -> Result<After<N>, Memory>
    requires { IsOfSort c.now.what (Some (Value.Num m.now)) }
    ensures { IfOk result (λ r. left_of state.now r
        ≡ narrowed.met N.ops c.now (Some (Value.Num m.now)) n.now state.now) }
{
    match m.meet(n) {
        None => Ok(After::Nothing),
        Some(v) => with_value(state, c, Value::Num(v)),
    }
}

fn value_met<N: Num>(state: &State<N>, c: &Cell<N>, v: &Value<N>, n: &N) -> Result<After<N>, Memory>
    requires { IsOfSort c.now.what (Some v.now) }
    ensures { IfOk result (λ r. left_of state.now r ≡ narrowed.met N.ops c.now (Some v.now) n.now state.now) }
{
    match v {
        Value::Num(m) => number_met(state, c, m, n),
        Value::Ptr(_) => Ok(After::Unchanged),
    }
}

fn met<N: Num>(
    state: &State<N>,
    c: &Cell<N>,
    v: &Option<Value<N>>,
    n: &N,
) -> Result<After<N>, Memory>
    requires { IsOfSort c.now.what v.now }
    ensures { IfOk result (λ r. left_of state.now r ≡ narrowed.met N.ops c.now v.now n.now state.now) }
{
    match v {
        None => Ok(After::Unchanged),
        Some(v) => value_met(state, c, v, n),
    }
}

/// The cell keeps the numbers that a value has too.
pub fn refined<N: Num>(state: &State<N>, c: &Option<Cell<N>>, n: &N) -> Result<After<N>, Memory>
    requires { IfSome c.now (λ c. IsOfSort c.what c.value) }
    ensures { IfOk result (λ r. left_of state.now r ≡ narrowed.refined N.ops c.now n.now state.now) }
{
    match c {
        None => Ok(After::Unchanged),
        Some(c) => met(state, c, &c.value, n),
    }
}

// ---- null

fn not_null<N: Num>(state: &State<N>, c: &Cell<N>, p: &PtrValue<N>) -> Result<After<N>, Memory>
    requires { IsOfSort c.now.what (Some (Value.Ptr p.now)) }
    ensures { IfOk result (λ r. left_of state.now r ≡ narrowed.null_taken c.now false p.now state.now) }
{
    let copy = p.copy()?;
    match copy.without_null() {
        None => Ok(After::Nothing),
        Some(q) => with_value(state, c, Value::Ptr(q)),
    }
}

fn null_taken<N: Num>(
    state: &State<N>,
    c: &Cell<N>,
    null: bool,
    p: &PtrValue<N>,
) -> Result<After<N>, Memory>
    requires { IsOfSort c.now.what (Some (Value.Ptr p.now)) }
    ensures { IfOk result (λ r. left_of state.now r ≡ narrowed.null_taken c.now null p.now state.now) }
{
    if null {
        return with_value(state, c, Value::Ptr(PtrValue::null(state.allocator())));
    }
    not_null(state, c, p)
}

fn null_value_met<N: Num>(
    state: &State<N>,
    c: &Cell<N>,
    null: bool,
    v: &Value<N>,
) -> Result<After<N>, Memory>
    requires { IsOfSort c.now.what (Some v.now) }
    ensures { IfOk result (λ r. left_of state.now r ≡ narrowed.null_met c.now null (Some v.now) state.now) }
{
    match v {
        Value::Num(_) => Ok(After::Unchanged),
        Value::Ptr(p) => null_taken(state, c, null, p),
    }
}

fn null_met<N: Num>(
    state: &State<N>,
    c: &Cell<N>,
    null: bool,
    v: &Option<Value<N>>,
) -> Result<After<N>, Memory>
    requires { IsOfSort c.now.what v.now }
    ensures { IfOk result (λ r. left_of state.now r ≡ narrowed.null_met c.now null v.now state.now) }
{
    match v {
        None => Ok(After::Unchanged),
        Some(v) => null_value_met(state, c, null, v),
    }
}

/// The pointer cell becomes null alone, or loses null.
pub fn null_refined<N: Num>(
    state: &State<N>,
    c: &Option<Cell<N>>,
    null: bool,
) -> Result<After<N>, Memory>
    requires { IfSome c.now (λ c. IsOfSort c.what c.value) }
    ensures { IfOk result (λ r. left_of state.now r ≡ narrowed.null_refined c.now null state.now) }
{
    match c {
        None => Ok(After::Unchanged),
        Some(c) => null_met(state, c, null, &c.value),
    }
}

// ---- conversions

fn has_range(t: IntType, what: Scalar) -> bool
    ensures { result ≡ narrowed.has_range t what }
{
    match what {
        Scalar::Int(u) => least(t) <= least(u) && greatest(u) <= greatest(t),
        Scalar::Pointer => false,
    }
}

/// The cell of a number that is converted to a type which has all its numbers.
pub fn if_kept<N: Num>(t: IntType, c: Option<Cell<N>>) -> Option<Cell<N>>
    ensures { result ≡ narrowed.if_kept t c }
{
    match c {
        None => None,
        Some(c) => { if has_range(t, c.what) { Some(c) } else { None } }
    }
}
