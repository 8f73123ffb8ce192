//! Inputs.

ghost use Rattle.std.specs.Prelude.{◌≡◌, ◌++◌, IfOk, OnOk, Some, None};
ghost use Rattle.ep_evaluation.specs.Given.{is_both};
ghost use Rattle.ep_transfer_fills.specs.Inputs.{input_number};
ghost use Rattle.ep_transfers.specs.Transfers as spec;

use ep_cells::Value;
use ep_domain::Num;
use ep_equalities::{Fault, Mode, PairValue, SideValue, same};
use ep_eval_sides::pairs::pair_on;
use ep_int::{IntType, Memory, Scalar};
use ep_states::State;
use ep_transfer_places::faults::range_faults;
use ep_transfer_places::places::{has_places, run_places};
use ep_transfer_writes::{Item, Underway, write_run};

fn is_both(mode: Mode) -> bool
    ensures { result ≡ is_both mode }
{
    match mode {
        Mode::Both => true,
        Mode::Left => false,
        Mode::Right => false,
    }
}

fn input_number<N: Num>(t: IntType, what: Scalar) -> N
    ensures { result ≡ input_number N.ops t what }
{
    match what {
        Scalar::Int(u) => N::top(t).convert(u),
        Scalar::Pointer => N::top(t),
    }
}

fn input_side<N: Num>(t: IntType, what: Scalar) -> SideValue<N>
    ensures { result ≡ record { value = Some (Value.Num (input_number N.ops t what)); form = None } }
{
    SideValue {
        value: Some(Value::Num(input_number(t, what))),
        form: None,
    }
}

/// An input of a type, as the scalar that it goes to: the same on both sides where both run.
pub fn input_pair<N: Num>(mode: Mode, t: IntType, what: Scalar) -> PairValue<N>
    ensures { result ≡ spec.input_pair N.ops mode t what }
{
    pair_on(
        mode,
        input_side(t, what),
        input_side(t, what),
        is_both(mode),
    )
}

/// Bytes are read into the places of an address. None is left where a running side has no place. The faults are added
/// to those that are there.
pub fn read_in<N: Num>(
    mode: Mode,
    sizes: &[u32],
    bytes: u32,
    to: &PairValue<N>,
    state: State<N>,
    faults: &mut Vec<Fault>,
) -> Result<Option<State<N>>, Memory>
    ensures next { IfOk result (λ r. r ≡ (spec.read_in N.ops sizes.now mode bytes to.now state).next) }
    ensures faults { OnOk result (faults.new.items
        ≡ faults.old.items ++ (spec.read_in N.ops sizes.now mode bytes to.now state).faults) }
{
    range_faults(mode, sizes, bytes, to, faults)?;
    let places = run_places(state.allocator(), sizes, bytes, to)?;
    if !has_places(mode, &places) {
        return Ok(None);
    }
    let item = Item::of(input_pair(mode, IntType::U8, Scalar::Int(IntType::U8)));
    let after = write_run(mode, same(to), &places, bytes, Underway { state, item })?;
    Ok(Some(after.state))
}
