//! Both sides of operators.

ghost use Rattle.std.specs.Prelude.{◌≡◌, ◌++◌, ◌&&◌, Some, IfOk, pos, List, ℕ, drop, if◌then◌else◌, None};
ghost use Rattle.ep_core.specs.Runs.{Side, left, right};
ghost use Rattle.ep_equalities.specs.Same.{is_same};
ghost use Rattle.ep_evaluation.specs.Given as given;
ghost use Rattle.ep_eval_sides.specs.Sides.{pick};

use crate::sides::nothing;
use ep_alarms::AlarmKind;
use ep_domain::Num;
use ep_equalities::{Fault, Mode, PairValue, SideValue, same};
use ep_int::Memory;

/// What each running side has.
pub fn pair_on<N: Num>(
    mode: Mode,
    left: SideValue<N>,
    right: SideValue<N>,
    equal: bool,
) -> PairValue<N>
    ensures { result ≡ given.pair_on mode (pick left right) equal }
{
    match mode {
        Mode::Both => PairValue { left, right, equal },
        Mode::Left => PairValue {
            left,
            right: nothing(),
            equal,
        },
        Mode::Right => PairValue {
            left: nothing(),
            right,
            equal,
        },
    }
}

/// Whether both pairs are surely equal ones.
pub fn are_same<N: Num>(x: &PairValue<N>, y: &PairValue<N>) -> bool
    ensures { result ≡ is_same N.ops x.now && is_same N.ops y.now }
{
    same(x) && same(y)
}

/// A range that is shown where there is a fault.
pub fn shows_if(fault: bool, range: (i128, i128)) -> Option<(i128, i128)>
    ensures { result ≡ given.shows_if fault range }
{
    if fault {
        return Some(range);
    }
    None
}

/// A fault of a kind that names no number.
pub fn shown_if(fault: bool) -> Option<(i128, i128)>
    ensures { result ≡ given.shown_if fault }
{
    shows_if(fault, (0, 0))
}

fn push(faults: &mut Vec<Fault>, fault: Fault) -> Result<(), Memory>
    ensures { IfOk result (λ _. faults.new.items ≡ faults.old.items ++ given.fault fault.kind fault.left fault.right) }
{
    faults.push(fault).map_err(|_| Memory)
}

fn note_right(
    faults: &mut Vec<Fault>,
    kind: AlarmKind,
    right: Option<(i128, i128)>,
) -> Result<(), Memory>
    ensures { IfOk result (λ _. faults.new.items ≡ faults.old.items ++ given.fault_of kind None right) }
{
    match right {
        None => Ok(()),
        Some(right) => push(
            faults,
            Fault {
                kind,
                left: (0, 0),
                right,
            },
        ),
    }
}

fn note_left(
    faults: &mut Vec<Fault>,
    kind: AlarmKind,
    left: (i128, i128),
    right: Option<(i128, i128)>,
) -> Result<(), Memory>
    ensures { IfOk result (λ _. faults.new.items ≡ faults.old.items ++ given.fault_of kind (Some left) right) }
{
    match right {
        None => push(
            faults,
            Fault {
                kind,
                left,
                right: (0, 0),
            },
        ),
        Some(right) => push(faults, Fault { kind, left, right }),
    }
}

fn note_both(
    faults: &mut Vec<Fault>,
    kind: AlarmKind,
    left: Option<(i128, i128)>,
    right: Option<(i128, i128)>,
) -> Result<(), Memory>
    ensures { IfOk result (λ _. faults.new.items ≡ faults.old.items ++ given.fault_of kind left right) }
{
    match left {
        None => note_right(faults, kind, right),
        Some(left) => note_left(faults, kind, left, right),
    }
}

/// The fault of a kind on the running sides that show one.
pub fn note(
    faults: &mut Vec<Fault>,
    mode: Mode,
    kind: AlarmKind,
    left: Option<(i128, i128)>,
    right: Option<(i128, i128)>,
) -> Result<(), Memory>
    ensures { IfOk result (λ _. faults.new.items
        ≡ faults.old.items ++ given.faults_on mode kind (pick left right)) }
{
    match mode {
        Mode::Both => note_both(faults, kind, left, right),
        Mode::Left => note_both(faults, kind, left, None),
        Mode::Right => note_both(faults, kind, None, right),
    }
}
