//! Values that are put out.

ghost use Rattle.std.specs.Prelude.{◌≡◌, ◌++◌, IfOk, OnOk, Some, pos};
ghost use Rattle.ep_transfers.specs.Transfers as spec;

use ep_alarms::AlarmKind;
use ep_domain::Num;
use ep_equalities::{Fault, Mode, PairValue, SideValue, same};
use ep_eval_sides::pairs::note;
use ep_eval_sides::sides::number;
use ep_int::Memory;
use ep_states::State;
use ep_transfer_places::places::has_values;

/// The fault of an input or output where one side runs alone.
pub fn note_alone(mode: Mode, faults: &mut Vec<Fault>) -> Result<(), Memory>
    ensures { IfOk result (λ _. faults.new.items ≡ faults.old.items ++ spec.alone_faults mode) }
{
    match mode {
        Mode::Both => Ok(()),
        Mode::Left => note(
            faults,
            Mode::Both,
            AlarmKind::E2,
            Some((0, 0)),
            Some((0, 0)),
        ),
        Mode::Right => note(
            faults,
            Mode::Both,
            AlarmKind::E2,
            Some((0, 0)),
            Some((0, 0)),
        ),
    }
}

fn shown_value<N: Num>(x: &SideValue<N>) -> (i128, i128)
    ensures { result ≡ spec.shown_value N.ops x.now }
{
    match number(x) {
        None => (0, 0),
        Some(n) => n.range(),
    }
}

/// The fault of values that may differ, unless they surely are the same.
pub fn note_difference<N: Num>(
    same: bool,
    v: &PairValue<N>,
    faults: &mut Vec<Fault>,
) -> Result<(), Memory>
    ensures { IfOk result (λ _. faults.new.items ≡ faults.old.items ++ spec.differ_faults N.ops same v.now) }
{
    if same {
        return Ok(());
    }
    let left = shown_value(&v.left);
    let right = shown_value(&v.right);
    note(faults, Mode::Both, AlarmKind::E1, Some(left), Some(right))
}

/// The fault of a value that is put out where both sides run.
pub(crate) fn note_differing<N: Num>(
    mode: Mode,
    v: &PairValue<N>,
    faults: &mut Vec<Fault>,
) -> Result<(), Memory>
    ensures { IfOk result (λ _. faults.new.items ≡ faults.old.items ++ spec.differs N.ops mode v.now) }
{
    match mode {
        Mode::Both => note_difference(same(v), v, faults),
        Mode::Left => Ok(()),
        Mode::Right => Ok(()),
    }
}

/// A value is put out. None is left where a running side has no value. The faults are added to those that are there.
pub fn put_out<N: Num>(
    mode: Mode,
    v: &PairValue<N>,
    state: State<N>,
    faults: &mut Vec<Fault>,
) -> Result<Option<State<N>>, Memory>
    ensures next { IfOk result (λ r. r ≡ (spec.put_out N.ops mode v.now state).next) }
    ensures faults { OnOk result (faults.new.items
        ≡ faults.old.items ++ (spec.put_out N.ops mode v.now state).faults) }
{
    note_alone(mode, faults)?;
    if !has_values(mode, v) {
        return Ok(None);
    }
    note_differing(mode, v, faults)?;
    Ok(Some(state))
}
