//! What may go wrong where the ranges of a copy overlap.

ghost use Rattle.std.specs.Prelude.{◌≡◌, ◌++◌, ◌&&◌, [], nat_eq, int_le, pos, not, ◌-ℤ◌, if◌then◌else◌, IfOk};
ghost use Rattle.ep_evaluation.specs.Evaluation as evaluation;
ghost use Rattle.ep_transfers.specs.Copies as spec;

use ep_alarms::AlarmKind;
use ep_domain::Num;
use ep_equalities::{Fault, Mode, PairValue, SideValue};
use ep_eval_places::places::targets;
use ep_eval_sides::pairs::{note, shown_if};
use ep_int::Memory;

type Range = (i128, i128);

fn larger(a: i128, b: i128) -> i128
    ensures { result ≡ (if int_le a b then b else a) }
{
    if a <= b {
        return b;
    }
    a
}

fn smaller(a: i128, b: i128) -> i128
    ensures { result ≡ (if int_le a b then a else b) }
{
    if a <= b {
        return a;
    }
    b
}

// Whether a difference of offsets may lie between these. An aggregate may be copied to itself.
fn may_be_between(aggregate: bool, low: i128, high: i128) -> bool
    ensures { result ≡ (int_le low high && not (aggregate && (int_le (pos 0) low && int_le high (pos 0)))) }
{
    low <= high && !(aggregate && (0 <= low && high <= 0))
}

fn least_difference<N: Num>(a: &N, b: &N) -> i128
    ensures { result ≡ (N.ops.range a.now).0 -ℤ (N.ops.range b.now).1 }
{
    let low = a.range().0;
    let high = b.range().1;
    low - high
}

fn greatest_difference<N: Num>(a: &N, b: &N) -> i128
    ensures { result ≡ (N.ops.range a.now).1 -ℤ (N.ops.range b.now).0 }
{
    let high = a.range().1;
    let low = b.range().0;
    high - low
}

// Ranges of so many bytes overlap where the difference of their offsets is from this on.
fn first_overlap(bytes: u32) -> i128
    ensures { result ≡ pos 1 -ℤ pos bytes }
{
    1 - i128::from(bytes)
}

fn last_overlap(bytes: u32) -> i128
    ensures { result ≡ pos bytes -ℤ pos 1 }
{
    i128::from(bytes) - 1
}

fn offsets_overlap<N: Num>(aggregate: bool, bytes: u32, a: &N, b: &N) -> bool
    ensures { result ≡ spec.ranges_overlap N.ops aggregate bytes (N.ops.range a.now) (N.ops.range b.now) }
{
    let low = larger(least_difference(a, b), first_overlap(bytes));
    let high = smaller(greatest_difference(a, b), last_overlap(bytes));
    may_be_between(aggregate, low, high)
}

fn is_overlap<N: Num>(aggregate: bool, bytes: u32, t: &(u32, N), u: &(u32, N)) -> bool
    ensures { result ≡ (nat_eq t.now.0 u.now.0
        && spec.ranges_overlap N.ops aggregate bytes (N.ops.range t.now.1) (N.ops.range u.now.1)) }
{
    t.0 == u.0 && offsets_overlap(aggregate, bytes, &t.1, &u.1)
}

fn target_overlaps<N: Num>(aggregate: bool, bytes: u32, others: &[(u32, N)], t: &(u32, N)) -> bool
    ensures { result ≡ spec.target_overlaps N.ops aggregate bytes others.now t.now }
{
    others.iter().any(|u| is_overlap(aggregate, bytes, t, u))
}

fn may_overlap<N: Num>(aggregate: bool, bytes: u32, to: &SideValue<N>, from: &SideValue<N>) -> bool
    ensures { result ≡ spec.may_overlap N.ops [] aggregate bytes to.now from.now }
{
    let others = targets(from);
    targets(to)
        .iter()
        .any(|t| target_overlaps(aggregate, bytes, others, t))
}

/// That the ranges of a copy may overlap is added to the faults that are there. Costs a look at each pair of blocks
/// that the addresses may point into.
pub fn overlap_faults<N: Num>(
    mode: Mode,
    aggregate: bool,
    bytes: u32,
    to: &PairValue<N>,
    from: &PairValue<N>,
    faults: &mut Vec<Fault>,
) -> Result<(), Memory>
    ensures { IfOk result (λ _. faults.new.items
        ≡ faults.old.items ++ spec.overlap_faults N.ops [] mode aggregate bytes to.now from.now) }
{
    let left = shown_if(may_overlap(aggregate, bytes, &to.left, &from.left));
    let right = shown_if(may_overlap(aggregate, bytes, &to.right, &from.right));
    note(faults, mode, AlarmKind::U9, left, right)
}
