//! Elements of arrays in place.

ghost use Rattle.std.specs.Prelude.{◌≡◌, ◌++◌, ◌≤◌, IfOk, OnOk, None, Some, [], ◌+◌, false, pos, int_lt, replicate};
ghost use Rattle.std.specs.Option.{option_map};
ghost use Rattle.ep_pointers.specs.Sum.{move, of_targets};
ghost use Rattle.ep_evaluation.specs.Accesses as accesses;
ghost use Rattle.ep_evaluation.specs.Given as given;
ghost use Rattle.ep_evaluation.specs.Given.{faults_on};
ghost use Rattle.ep_evaluation.specs.Evaluation as spec;
ghost use Rattle.ep_eval_places.specs.Offsets.{count_to};
ghost use Rattle.ep_eval_sides.specs.Sides.{faultless, pick};

use crate::moves::pointer_value;
use ep_alarms::AlarmKind;
use ep_cells::Value;
use ep_domain::Num;
use ep_equalities::{Fault, Mode, PairValue, SideValue};
use ep_eval_sides::pairs::{are_same, note, pair_on, shown_if, shows_if};
use ep_eval_sides::sides::{formless, nothing, number, pointer};
use ep_int::Memory;
use ep_pointers::PtrValue;
use std::alloc::Global;

type Range = (i128, i128);

const GREATEST_OFFSET: u32 = u32::MAX;

// The greatest number of a block of these.
fn count_to<N: Num>(targets: &[(u32, N)]) -> u32
    ensures { result ≡ count_to targets.now }
{
    let mut count: u32 = 0;
    for t in targets {
        count = count.max(t.0);
    }
    count
}

// An offset of a pointer has 32 bits, whatever its block's size is.
fn limits<N: Num>(alloc: Global, targets: &[(u32, N)]) -> Result<Vec<u32>, Memory>
    ensures { IfOk result (λ v. v.items ≡ replicate (count_to targets.now + 1) 4294967295) }
{
    let count = count_to(targets) as usize + 1;
    vec![in alloc; GREATEST_OFFSET; count].map_err(|_| Memory)
}

fn leaves_array(range: Range, bound: u32) -> bool
    ensures { result ≡ accesses.leaves_array range bound }
{
    range.0 < 0 || i128::from(bound) <= range.1
}

fn index_leaves<N: Num>(bound: u32, n: &N) -> Option<Range>
    ensures { result ≡ given.shows_if (accesses.leaves_array (N.ops.range n.now) bound) (N.ops.range n.now) }
{
    shows_if(leaves_array(n.range(), bound), n.range())
}

// The numbers of an index that are below the bound.
fn index_in<N: Num>(bound: u32, n: &N) -> Option<N>
    ensures { result ≡ accesses.index_in N.ops bound n.now }
{
    n.cut(0, i128::from(bound) - 1)
}

/// What an element gives on a side.
#[derive(Drop)]
struct Found<N> {
    side: SideValue<N>,
    null: bool,
    leaves: Option<Range>,
    passes: Option<Range>,
}

fn passes_if(shown: Range) -> Option<Range>
    ensures { result ≡ given.shows_if (int_lt (pos 4294967295) shown.1) shown }
{
    shows_if(i128::from(GREATEST_OFFSET) < shown.1, shown)
}

fn not_found<N: Num>() -> Found<N>
    ensures side { result.side ≡ spec.formless N.ops None }
    ensures null { result.null ≡ false }
    ensures leaves { result.leaves ≡ None }
    ensures passes { result.passes ≡ None }
{
    Found {
        side: nothing(),
        null: false,
        leaves: None,
        passes: None,
    }
}

fn found_at<N: Num>(
    alloc: Global,
    unit: u32,
    p: &PtrValue<N>,
    i: &N,
    leaves: Option<Range>,
) -> Result<Found<N>, Memory>
    requires { 1 ≤ unit }
    ensures side { IfOk result (λ r. r.side ≡ spec.formless N.ops (option_map (λ p. Value.Ptr p)
        (of_targets (accesses.element_targets N.ops (move i.now unit false) p.now.targets)))) }
    ensures null { IfOk result (λ r. r.null ≡ p.now.null) }
    ensures leaves { IfOk result (λ r. r.leaves ≡ leaves) }
    ensures passes { IfOk result (λ r. r.passes ≡ accesses.passes_by N.ops unit p.now.targets (Some i.now)) }
{
    let limits = limits(alloc, p.targets())?;
    let sum = p.add(i, unit, false, &limits)?;
    Ok(Found {
        side: formless(pointer_value(sum.value)),
        null: sum.null,
        leaves,
        passes: passes_if(sum.shown),
    })
}

fn found_of<N: Num>(
    alloc: Global,
    bound: u32,
    unit: u32,
    p: &PtrValue<N>,
    n: &N,
) -> Result<Found<N>, Memory>
    requires { 1 ≤ unit }
    ensures side { IfOk result (λ r. r.side ≡ spec.formless N.ops (option_map (λ p. Value.Ptr p)
        (accesses.element_of N.ops bound unit (Some p.now) (Some n.now)))) }
    ensures null { IfOk result (λ r. r.null ≡ accesses.moves_null (Some p.now) (Some n.now)) }
    ensures leaves { IfOk result (λ r. r.leaves ≡ accesses.index_leaves N.ops bound (Some p.now) (Some n.now)) }
    ensures passes { IfOk result (λ r. r.passes
        ≡ accesses.element_passes N.ops bound unit (Some p.now) (Some n.now)) }
{
    match index_in(bound, n) {
        None => Ok(Found {
            side: nothing(),
            null: p.may_be_null(),
            leaves: index_leaves(bound, n),
            passes: None,
        }),
        Some(i) => found_at(alloc, unit, p, &i, index_leaves(bound, n)),
    }
}

fn found_with<N: Num>(
    alloc: Global,
    bound: u32,
    unit: u32,
    p: &PtrValue<N>,
    n: Option<N>,
) -> Result<Found<N>, Memory>
    requires { 1 ≤ unit }
    ensures side { IfOk result (λ r. r.side ≡ spec.formless N.ops (option_map (λ p. Value.Ptr p)
        (accesses.element_of N.ops bound unit (Some p.now) n))) }
    ensures null { IfOk result (λ r. r.null ≡ accesses.moves_null (Some p.now) n) }
    ensures leaves { IfOk result (λ r. r.leaves ≡ accesses.index_leaves N.ops bound (Some p.now) n) }
    ensures passes { IfOk result (λ r. r.passes ≡ accesses.element_passes N.ops bound unit (Some p.now) n) }
{
    match n {
        None => Ok(not_found()),
        Some(n) => found_of(alloc, bound, unit, p, &n),
    }
}

fn found_side<N: Num>(
    alloc: Global,
    bound: u32,
    unit: u32,
    p: Option<&PtrValue<N>>,
    n: Option<N>,
) -> Result<Found<N>, Memory>
    requires { 1 ≤ unit }
    ensures side { IfOk result (λ r. r.side ≡ spec.formless N.ops (option_map (λ p. Value.Ptr p)
        (accesses.element_of N.ops bound unit (option_map (λ p. p.now) p.entry) n))) }
    ensures null { IfOk result (λ r. r.null ≡ accesses.moves_null (option_map (λ p. p.now) p.entry) n) }
    ensures leaves { IfOk result (λ r. r.leaves
        ≡ accesses.index_leaves N.ops bound (option_map (λ p. p.now) p.entry) n) }
    ensures passes { IfOk result (λ r. r.passes
        ≡ accesses.element_passes N.ops bound unit (option_map (λ p. p.now) p.entry) n) }
{
    match p {
        None => Ok(not_found()),
        Some(p) => found_with(alloc, bound, unit, p, n),
    }
}

fn note_found<N: Num>(
    faults: &mut Vec<Fault>,
    mode: Mode,
    left: &Found<N>,
    right: &Found<N>,
) -> Result<(), Memory>
    ensures { IfOk result (λ _. faults.new.items ≡ faults.old.items
        ++ (faults_on mode AlarmKind.U6 (pick (given.shown_if left.now.null) (given.shown_if right.now.null))
        ++ (faults_on mode AlarmKind.U5 (pick left.now.leaves right.now.leaves)
        ++ faults_on mode AlarmKind.U5 (pick left.now.passes right.now.passes)))) }
{
    note(
        faults,
        mode,
        AlarmKind::U6,
        shown_if(left.null),
        shown_if(right.null),
    )?;
    note(faults, mode, AlarmKind::U5, left.leaves, right.leaves)?;
    note(faults, mode, AlarmKind::U5, left.passes, right.passes)
}

/// An element of an array in place, by the array's bound, the element's size and the index. Takes memory for the
/// numbers of blocks up to the last one that the address may be in.
pub fn element<N: Num>(
    alloc: Global,
    mode: Mode,
    bound: u32,
    unit: u32,
    x: &PairValue<N>,
    y: &PairValue<N>,
    faults: &mut Vec<Fault>,
) -> Result<PairValue<N>, Memory>
    requires { 1 ≤ unit }
    ensures value { IfOk result (λ r. r
        ≡ (spec.element_given N.ops [] bound unit mode (faultless x.now) (faultless y.now)).pair) }
    ensures faults { OnOk result (faults.new.items ≡ faults.old.items
        ++ (spec.element_given N.ops [] bound unit mode (faultless x.now) (faultless y.now)).faults) }
{
    let left = found_side(alloc, bound, unit, pointer(&x.left), number(&y.left))?;
    let right = found_side(alloc, bound, unit, pointer(&x.right), number(&y.right))?;
    note_found(faults, mode, &left, &right)?;
    Ok(pair_on(mode, left.side, right.side, are_same(x, y)))
}
