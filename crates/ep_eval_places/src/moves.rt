//! Addresses that are moved.

ghost use Rattle.std.specs.Prelude.{◌≡◌, ◌++◌, ◌≤◌, IfOk, OnOk, None, Some, [], false};
ghost use Rattle.std.specs.Option.{option_map};
ghost use Rattle.ep_pointers.specs.Sum.{move};
ghost use Rattle.ep_evaluation.specs.Accesses as accesses;
ghost use Rattle.ep_evaluation.specs.Evaluation as spec;
ghost use Rattle.ep_evaluation.specs.Given as given;
ghost use Rattle.ep_evaluation.specs.Given.{faults_on};
ghost use Rattle.ep_eval_sides.specs.Sides.{faultless, pick};

use ep_alarms::AlarmKind;
use ep_cells::Value;
use ep_domain::Num;
use ep_equalities::{Fault, Mode, PairValue, SideValue, same};
use ep_eval_sides::pairs::{are_same, note, pair_on, shown_if, shows_if};
use ep_eval_sides::sides::{formless, nothing, number, pointer};
use ep_int::Memory;
use ep_pointers::PtrValue;

type Range = (i128, i128);

pub(crate) fn pointer_value<N: Num>(p: Option<PtrValue<N>>) -> Option<Value<N>>
    ensures { result ≡ option_map (λ p. Value.Ptr p) p }
{
    match p {
        None => None,
        Some(p) => Some(Value::Ptr(p)),
    }
}

#[derive(Drop)]
struct Moved<N> {
    side: SideValue<N>,
    null: bool,
    leaves: Option<Range>,
}

fn no_sum<N: Num>() -> Moved<N>
    ensures side { result.side ≡ spec.formless N.ops None }
    ensures null { result.null ≡ false }
    ensures leaves { result.leaves ≡ None }
{
    Moved {
        side: nothing(),
        null: false,
        leaves: None,
    }
}

fn sum_of<N: Num>(
    sizes: &[u32],
    unit: u32,
    back: bool,
    p: &PtrValue<N>,
    n: &N,
) -> Result<Moved<N>, Memory>
    requires { 1 ≤ unit }
    ensures side { IfOk result (λ r. r.side ≡ spec.formless N.ops (option_map (λ p. Value.Ptr p)
        (accesses.moved_by N.ops sizes.now unit back (Some p.now) (Some n.now)))) }
    ensures null { IfOk result (λ r. r.null ≡ accesses.moves_null (Some p.now) (Some n.now)) }
    ensures leaves { IfOk result (λ r. r.leaves
        ≡ accesses.move_leaves N.ops sizes.now unit back (Some p.now) (Some n.now)) }
{
    let sum = p.add(n, unit, back, sizes)?;
    Ok(Moved {
        side: formless(pointer_value(sum.value)),
        null: sum.null,
        leaves: shows_if(sum.out, sum.shown),
    })
}

fn sum_with<N: Num>(
    sizes: &[u32],
    unit: u32,
    back: bool,
    p: &PtrValue<N>,
    n: Option<N>,
) -> Result<Moved<N>, Memory>
    requires { 1 ≤ unit }
    ensures side { IfOk result (λ r. r.side ≡ spec.formless N.ops (option_map (λ p. Value.Ptr p)
        (accesses.moved_by N.ops sizes.now unit back (Some p.now) n))) }
    ensures null { IfOk result (λ r. r.null ≡ accesses.moves_null (Some p.now) n) }
    ensures leaves { IfOk result (λ r. r.leaves
        ≡ accesses.move_leaves N.ops sizes.now unit back (Some p.now) n) }
{
    match n {
        None => Ok(no_sum()),
        Some(n) => sum_of(sizes, unit, back, p, &n),
    }
}

fn sum_side<N: Num>(
    sizes: &[u32],
    unit: u32,
    back: bool,
    p: Option<&PtrValue<N>>,
    n: Option<N>,
) -> Result<Moved<N>, Memory>
    requires { 1 ≤ unit }
    ensures side { IfOk result (λ r. r.side ≡ spec.formless N.ops (option_map (λ p. Value.Ptr p)
        (accesses.moved_by N.ops sizes.now unit back (option_map (λ p. p.now) p.entry) n))) }
    ensures null { IfOk result (λ r. r.null ≡ accesses.moves_null (option_map (λ p. p.now) p.entry) n) }
    ensures leaves { IfOk result (λ r. r.leaves
        ≡ accesses.move_leaves N.ops sizes.now unit back (option_map (λ p. p.now) p.entry) n) }
{
    match p {
        None => Ok(no_sum()),
        Some(p) => sum_with(sizes, unit, back, p, n),
    }
}

// The faults of sums of both sides, after those that are there.
fn note_sums<N: Num>(
    faults: &mut Vec<Fault>,
    mode: Mode,
    left: &Moved<N>,
    right: &Moved<N>,
) -> Result<(), Memory>
    ensures { IfOk result (λ _. faults.new.items ≡ faults.old.items
        ++ (faults_on mode AlarmKind.U6 (pick (given.shown_if left.now.null) (given.shown_if right.now.null))
        ++ faults_on mode AlarmKind.U5 (pick left.now.leaves right.now.leaves))) }
{
    note(
        faults,
        mode,
        AlarmKind::U6,
        shown_if(left.null),
        shown_if(right.null),
    )?;
    note(faults, mode, AlarmKind::U5, left.leaves, right.leaves)
}

/// A pointer so many units of so many bytes further on, or back.
pub fn sum<N: Num>(
    mode: Mode,
    sizes: &[u32],
    unit: u32,
    back: bool,
    x: &PairValue<N>,
    y: &PairValue<N>,
    faults: &mut Vec<Fault>,
) -> Result<PairValue<N>, Memory>
    requires { 1 ≤ unit }
    ensures value { IfOk result (λ r. r
        ≡ (spec.sum_given N.ops sizes.now unit back mode (faultless x.now) (faultless y.now)).pair) }
    ensures faults { OnOk result (faults.new.items ≡ faults.old.items
        ++ (spec.sum_given N.ops sizes.now unit back mode (faultless x.now) (faultless y.now)).faults) }
{
    let left = sum_side(sizes, unit, back, pointer(&x.left), number(&y.left))?;
    let right = sum_side(sizes, unit, back, pointer(&x.right), number(&y.right))?;
    note_sums(faults, mode, &left, &right)?;
    Ok(pair_on(mode, left.side, right.side, are_same(x, y)))
}

fn offset_number<N: Num>(offset: u32) -> N
    ensures { Some result ≡ spec.offset_number N.ops [] offset }
{
    N::single(i128::from(offset))
}

/// A member at so many bytes.
pub fn member<N: Num>(
    mode: Mode,
    sizes: &[u32],
    offset: u32,
    x: &PairValue<N>,
    faults: &mut Vec<Fault>,
) -> Result<PairValue<N>, Memory>
    ensures value { IfOk result (λ r. r
        ≡ (spec.member_given N.ops sizes.now offset mode (faultless x.now)).pair) }
    ensures faults { OnOk result (faults.new.items ≡ faults.old.items
        ++ (spec.member_given N.ops sizes.now offset mode (faultless x.now)).faults) }
{
    let n = offset_number(offset);
    let left = sum_side(sizes, 1, false, pointer(&x.left), Some(n))?;
    let right = sum_side(sizes, 1, false, pointer(&x.right), Some(n))?;
    note_sums(faults, mode, &left, &right)?;
    Ok(pair_on(mode, left.side, right.side, same(x)))
}
