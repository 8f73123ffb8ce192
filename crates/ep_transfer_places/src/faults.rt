//! What may go wrong with the address of an access.

ghost use Rattle.std.specs.Prelude.{◌≡◌, ◌<◌, ◌++◌, [], IfOk};
ghost use Rattle.ep_evaluation.specs.Accesses as accesses;
ghost use Rattle.ep_evaluation.specs.Given as given;
ghost use Rattle.ep_evaluation.specs.Given.{faults_on};
ghost use Rattle.ep_evaluation.specs.Evaluation as evaluation;
ghost use Rattle.ep_transfers.specs.Places as spec;

use ep_alarms::AlarmKind;
use ep_domain::Num;
use ep_equalities::{Fault, Mode, PairValue, SideValue};
use ep_eval_places::places::{bounds_of, may_be_odd, targets};
use ep_eval_sides::pairs::{note, shown_if};
use ep_eval_sides::sides::pointer;
use ep_int::Memory;

fn may_be_null<N: Num>(x: &SideValue<N>) -> bool
    ensures { result ≡ evaluation.is_null N.ops [] (evaluation.pointer N.ops x.now) }
{
    match pointer(x) {
        None => false,
        Some(p) => p.may_be_null(),
    }
}

fn note_null<N: Num>(mode: Mode, a: &PairValue<N>, faults: &mut Vec<Fault>) -> Result<(), Memory>
    ensures { IfOk result (λ _. faults.new.items ≡ faults.old.items
        ++ faults_on mode AlarmKind.U6
        (λ s. given.shown_if (evaluation.is_null N.ops [] (evaluation.pointer N.ops (given.on a.now s))))) }
{
    let left = shown_if(may_be_null(&a.left));
    let right = shown_if(may_be_null(&a.right));
    note(faults, mode, AlarmKind::U6, left, right)
}

fn note_bounds<N: Num>(
    mode: Mode,
    sizes: &[u32],
    n: u32,
    a: &PairValue<N>,
    faults: &mut Vec<Fault>,
) -> Result<(), Memory>
    ensures { IfOk result (λ _. faults.new.items ≡ faults.old.items
        ++ faults_on mode AlarmKind.U5 (λ s. accesses.bounds_of N.ops sizes.now n
        (evaluation.targets_of N.ops [] (evaluation.pointer N.ops (given.on a.now s))))) }
{
    let left = bounds_of(sizes, n, targets(&a.left));
    let right = bounds_of(sizes, n, targets(&a.right));
    note(faults, mode, AlarmKind::U5, left, right)
}

fn note_odd<N: Num>(
    mode: Mode,
    n: u32,
    a: &PairValue<N>,
    faults: &mut Vec<Fault>,
) -> Result<(), Memory>
    requires { 0 < n }
    ensures { IfOk result (λ _. faults.new.items ≡ faults.old.items
        ++ faults_on mode AlarmKind.U7 (λ s. given.shown_if (accesses.may_be_odd N.ops n
        (evaluation.targets_of N.ops [] (evaluation.pointer N.ops (given.on a.now s)))))) }
{
    let left = shown_if(may_be_odd(n, targets(&a.left)));
    let right = shown_if(may_be_odd(n, targets(&a.right)));
    note(faults, mode, AlarmKind::U7, left, right)
}

/// What may go wrong with the address of a run of n bytes is added to the faults that are there.
pub fn range_faults<N: Num>(
    mode: Mode,
    sizes: &[u32],
    n: u32,
    a: &PairValue<N>,
    faults: &mut Vec<Fault>,
) -> Result<(), Memory>
    ensures { IfOk result (λ _. faults.new.items
        ≡ faults.old.items ++ spec.range_faults N.ops sizes.now mode n a.now) }
{
    note_null(mode, a, faults)?;
    note_bounds(mode, sizes, n, a, faults)
}

/// The same of the address of a scalar of n bytes.
pub fn aligned_faults<N: Num>(
    mode: Mode,
    sizes: &[u32],
    n: u32,
    a: &PairValue<N>,
    faults: &mut Vec<Fault>,
) -> Result<(), Memory>
    requires { 0 < n }
    ensures { IfOk result (λ _. faults.new.items
        ≡ faults.old.items ++ spec.aligned_faults N.ops sizes.now mode n a.now) }
{
    range_faults(mode, sizes, n, a, faults)?;
    note_odd(mode, n, a, faults)
}
