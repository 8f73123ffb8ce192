//! What is read at an address, and the cell that has it.

ghost use Rattle.std.specs.Prelude.{◌≡◌, ◌++◌, ◌≢◌, ◌∷◌, [], ◌<◌, ◌&&◌, ◌||◌, IfOk, IfSome, OnOk, None, Some, false};
ghost use Rattle.std.specs.Prelude.{true, length};
ghost use Rattle.std.specs.Option.{option_map};
ghost use Rattle.ep_cells.specs.Both.{value_of_both};
ghost use Rattle.ep_cells.specs.Cells.{IsIn};
ghost use Rattle.ep_cells.specs.Look.{cell_at};
ghost use Rattle.ep_cells.specs.States.{IsOfSort};
ghost use Rattle.ep_cell_ranges.specs.Shared.{is_shared_cell};
ghost use Rattle.ep_reads.specs.Read.{read};
ghost use Rattle.ep_evaluation.specs.Accesses as accesses;
ghost use Rattle.ep_evaluation.specs.Given as given;
ghost use Rattle.ep_evaluation.specs.Given.{faults_on};
ghost use Rattle.ep_evaluation.specs.Evaluation as spec;
ghost use Rattle.ep_evaluation.specs.Narrowed as narrowed;
ghost use Rattle.ep_equalities.specs.Same.{is_same};
ghost use Rattle.ep_eval_sides.specs.Sides.{faultless, pick};
ghost use Rattle.ep_eval_loads.specs.Loads.{address_faults, all_shared_by};
ghost use Rattle.ep_eval_loads.specs.Running.{side_of};

use crate::near::{near_at, nowhere};
use crate::running::Running;
use ep_alarms::AlarmKind;
use ep_bitslice::Side;
use ep_cell_rows::cell::copy_cell;
use ep_cell_rows::places::{covers, is_same_scalar, is_same_side};
use ep_cell_rows::values::Union;
use ep_cells::Cell;
use ep_domain::Num;
use ep_equalities::{Fault, Mode, PairValue, SideValue, same};
use ep_eval_places::places::{bounds_of, may_be_odd, spots, targets};
use ep_eval_sides::pairs::{note, pair_on, shown_if};
use ep_eval_sides::sides::pointer;
use ep_int::{Memory, Scalar};
use ep_reads::ReadValue;
use ep_state_synthesis::read;
use ep_states::State;
use ep_synthesis::read::{is_exact, whole_read};

// ---- one place

/// What is read at a place, and whether a Shared cell is just that.
#[derive(Drop)]
struct OneRead<N> {
    value: ReadValue<N>,
    shared: bool,
}

fn seen_of_cell<N: Num>(
    state: &State<N>,
    side: Side,
    spot: (u32, u32),
    what: Scalar,
    x: &Cell<N>,
) -> Result<OneRead<N>, Memory>
    requires found { cell_at state.now.model side spot.0 spot.1 state.now.cells ≡ Some x.now }
    ensures value { IfOk result (λ r. r.value ≡ read N.ops state.now side spot.0 spot.1 what) }
    ensures shared { IfOk result (λ r. r.shared ≡ is_shared_cell state.now what spot.1 (Some x.now)) }
{
    if is_exact(state.model(), what, spot.1, x) {
        let value = whole_read(what, x)?;
        return Ok(OneRead {
            value,
            shared: is_same_side(x.side, Side::Shared),
        });
    }
    let value = read(state, side, spot.0, spot.1, what)?;
    Ok(OneRead {
        value,
        shared: false,
    })
}

// One search, where a cell is exactly the scalar.
fn seen<N: Num>(
    state: &State<N>,
    side: Side,
    spot: (u32, u32),
    what: Scalar,
) -> Result<OneRead<N>, Memory>
    ensures value { IfOk result (λ r. r.value ≡ read N.ops state.now side spot.0 spot.1 what) }
    ensures shared { IfOk result (λ r. r.shared ≡ is_shared_cell state.now what spot.1
        (cell_at state.now.model side spot.0 spot.1 state.now.cells)) }
{
    match state.cell_at(side, spot.0, spot.1) {
        None => {
            let value = read(state, side, spot.0, spot.1, what)?;
            Ok(OneRead {
                value,
                shared: false,
            })
        }
        Some(x) => seen_of_cell(state, side, spot, what, x),
    }
}

// The same, where the cell that has it may be at hand.
fn seen_near<N: Num>(
    near: Option<&&Cell<N>>,
    state: &State<N>,
    side: Side,
    spot: (u32, u32),
    what: Scalar,
) -> Result<OneRead<N>, Memory>
    requires { IfSome near (λ x. IsIn x.now.now state.now.cells) }
    ensures value { IfOk result (λ r. r.value ≡ read N.ops state.now side spot.0 spot.1 what) }
    ensures shared { IfOk result (λ r. r.shared ≡ is_shared_cell state.now what spot.1
        (cell_at state.now.model side spot.0 spot.1 state.now.cells)) }
{
    match near {
        None => seen(state, side, spot, what),
        Some(x) => {
            if covers(state.model(), side, spot.0, spot.1, x) {
                return seen_of_cell(state, side, spot, what, x);
            }
            seen(state, side, spot, what)
        }
    }
}

fn lacks_value<N: Num>(r: &ReadValue<N>) -> bool
    ensures { result ≡ accesses.lacks_value r.now }
{
    r.maybe || (r.value.is_none() && !r.mixed)
}

// ---- several places

/// What a side reads.
#[derive(Drop)]
pub struct SideReads<N> {
    pub side: SideValue<N>,
    pub unset: bool,
    pub mixed: bool,
    pub shared: bool,
}

fn one_read<N: Num>(
    state: &State<N>,
    side: Side,
    spot: (u32, u32),
    what: Scalar,
) -> Result<SideReads<N>, Memory>
    ensures value { IfOk result (λ r. r.side.value
        ≡ accesses.joined_reads N.ops (accesses.reads_of N.ops state.now side what (spot ∷ []))) }
    ensures form { IfOk result (λ r. r.side.form
        ≡ accesses.form_of_reads (accesses.reads_of N.ops state.now side what (spot ∷ []))) }
    ensures unset { IfOk result (λ r. r.unset
        ≡ accesses.is_unset (accesses.reads_of N.ops state.now side what (spot ∷ []))) }
    ensures mixed { IfOk result (λ r. r.mixed
        ≡ accesses.is_mixed (accesses.reads_of N.ops state.now side what (spot ∷ []))) }
    ensures shared { IfOk result (λ r. r.shared ≡ accesses.are_shared state.now side what (spot ∷ [])) }
{
    let r = seen(state, side, spot, what)?;
    Ok(SideReads {
        unset: lacks_value(&r.value),
        mixed: r.value.mixed,
        shared: r.shared,
        side: SideValue {
            value: r.value.value,
            form: r.value.form,
        },
    })
}

fn no_read<N: Num>() -> SideReads<N>
    ensures value { result.side.value ≡ None }
    ensures form { result.side.form ≡ None }
    ensures unset { result.unset ≡ false }
    ensures mixed { result.mixed ≡ false }
    ensures shared { result.shared ≡ true }
{
    SideReads {
        side: SideValue {
            value: None,
            form: None,
        },
        unset: false,
        mixed: false,
        shared: true,
    }
}

// One place more: the value is joined, and forms are left out.
fn with_read<N: Num>(
    sofar: &SideReads<N>,
    near: Option<&&Cell<N>>,
    state: &State<N>,
    side: Side,
    spot: (u32, u32),
    what: Scalar,
) -> Result<SideReads<N>, Memory>
    requires { IfSome near (λ x. IsIn x.now.now state.now.cells) }
    ensures value { IfOk result (λ r. r.side.value ≡ value_of_both N.ops.join sofar.now.side.value
        (read N.ops state.now side spot.0 spot.1 what).value) }
    ensures form { IfOk result (λ r. r.side.form ≡ None) }
    ensures unset { IfOk result (λ r. r.unset
        ≡ (sofar.now.unset || accesses.lacks_value (read N.ops state.now side spot.0 spot.1 what))) }
    ensures mixed { IfOk result (λ r. r.mixed
        ≡ (sofar.now.mixed || (read N.ops state.now side spot.0 spot.1 what).mixed)) }
    ensures shared { IfOk result (λ r. r.shared ≡ (sofar.now.shared && is_shared_cell state.now what spot.1
        (cell_at state.now.model side spot.0 spot.1 state.now.cells))) }
{
    let r = seen_near(near, state, side, spot, what)?;
    let value = Union::Join.values(&sofar.side.value, &r.value.value)?;
    Ok(SideReads {
        side: SideValue { value, form: None },
        unset: sofar.unset | lacks_value(&r.value),
        mixed: sofar.mixed | r.value.mixed,
        shared: sofar.shared & r.shared,
    })
}

// Cells that lie next to each other are looked at in turn.
fn many_reads<N: Num>(
    state: &State<N>,
    side: Side,
    spots: &[(u32, u32)],
    what: Scalar,
) -> Result<SideReads<N>, Memory>
    requires { length spots.now ≢ 1 }
    ensures value { IfOk result (λ r. r.side.value
        ≡ accesses.joined_reads N.ops (accesses.reads_of N.ops state.now side what spots.now)) }
    ensures form { IfOk result (λ r. r.side.form
        ≡ accesses.form_of_reads (accesses.reads_of N.ops state.now side what spots.now)) }
    ensures unset { IfOk result (λ r. r.unset
        ≡ accesses.is_unset (accesses.reads_of N.ops state.now side what spots.now)) }
    ensures mixed { IfOk result (λ r. r.mixed
        ≡ accesses.is_mixed (accesses.reads_of N.ops state.now side what spots.now)) }
    ensures shared { IfOk result (λ r. r.shared ≡ accesses.are_shared state.now side what spots.now) }
{
    let mut sofar = no_read();
    let mut near = nowhere(state, side);
    for i in 0..spots.len() {
        let spot = spots[i];
        near = near_at(near, state, side, spots, i, spot)?;
        let next = with_read(&sofar, near.cells.get(near.at), state, side, spot, what)?;
        sofar = next;
    }
    Ok(sofar)
}

/// What a side reads at places, in their order.
pub fn all_reads<N: Num>(
    state: &State<N>,
    side: Side,
    spots: &[(u32, u32)],
    what: Scalar,
) -> Result<SideReads<N>, Memory>
    ensures value { IfOk result (λ r. r.side.value
        ≡ accesses.joined_reads N.ops (accesses.reads_of N.ops state.now side what spots.now)) }
    ensures form { IfOk result (λ r. r.side.form
        ≡ accesses.form_of_reads (accesses.reads_of N.ops state.now side what spots.now)) }
    ensures unset { IfOk result (λ r. r.unset
        ≡ accesses.is_unset (accesses.reads_of N.ops state.now side what spots.now)) }
    ensures mixed { IfOk result (λ r. r.mixed
        ≡ accesses.is_mixed (accesses.reads_of N.ops state.now side what spots.now)) }
    ensures shared { IfOk result (λ r. r.shared ≡ accesses.are_shared state.now side what spots.now) }
{
    match spots {
        [] => many_reads(state, side, spots, what),
        [spot] => one_read(state, side, *spot, what),
        [_, _, ..] => many_reads(state, side, spots, what),
    }
}

// What a side reads through an address.
fn reads_at<N: Num>(
    sizes: &[u32],
    state: &State<N>,
    side: Side,
    what: Scalar,
    x: &SideValue<N>,
) -> Result<SideReads<N>, Memory>
    ensures value { IfOk result (λ r. r.side.value
        ≡ accesses.joined_reads N.ops (accesses.reads_of N.ops state.now side what
        (spec.places_at N.ops sizes.now what state.now x.now))) }
    ensures form { IfOk result (λ r. r.side.form
        ≡ accesses.form_of_reads (accesses.reads_of N.ops state.now side what
        (spec.places_at N.ops sizes.now what state.now x.now))) }
    ensures unset { IfOk result (λ r. r.unset
        ≡ accesses.is_unset (accesses.reads_of N.ops state.now side what
        (spec.places_at N.ops sizes.now what state.now x.now))) }
    ensures mixed { IfOk result (λ r. r.mixed
        ≡ accesses.is_mixed (accesses.reads_of N.ops state.now side what
        (spec.places_at N.ops sizes.now what state.now x.now))) }
    ensures shared { IfOk result (λ r. r.shared
        ≡ accesses.are_shared state.now side what (spec.places_at N.ops sizes.now what state.now x.now)) }
{
    let spots = places_at(sizes, state, what, x)?;
    let all = all_reads(state, side, &spots, what)?;
    Ok(all)
}

/// The places of a scalar at an address, by block and offset.
pub fn places_at<N: Num>(
    sizes: &[u32],
    state: &State<N>,
    what: Scalar,
    x: &SideValue<N>,
) -> Result<Vec<(u32, u32)>, Memory>
    ensures { IfOk result (λ v. v.items ≡ spec.places_at N.ops sizes.now what state.now x.now) }
{
    let n = ep_int::size(state.model(), what);
    let all = spots(state.allocator(), sizes, n, targets(x))?;
    Ok(all)
}

fn all_shared(mode: Mode, left: bool, right: bool) -> bool
    ensures { result ≡ all_shared_by mode left right }
{
    match mode {
        Mode::Both => left && right,
        Mode::Left => left,
        Mode::Right => right,
    }
}

fn may_be_null<N: Num>(x: &SideValue<N>) -> bool
    ensures { result ≡ spec.is_null N.ops [] (spec.pointer N.ops x.now) }
{
    match pointer(x) {
        None => false,
        Some(p) => p.may_be_null(),
    }
}

fn note_null<N: Num>(mode: Mode, x: &PairValue<N>, faults: &mut Vec<Fault>) -> Result<(), Memory>
    ensures { IfOk result (λ _. faults.new.items ≡ faults.old.items
        ++ faults_on mode AlarmKind.U6
        (λ s. given.shown_if (spec.is_null N.ops [] (spec.pointer N.ops (given.on x.now s))))) }
{
    let left = shown_if(may_be_null(&x.left));
    let right = shown_if(may_be_null(&x.right));
    note(faults, mode, AlarmKind::U6, left, right)
}

fn note_bounds<N: Num>(
    mode: Mode,
    sizes: &[u32],
    n: u32,
    x: &PairValue<N>,
    faults: &mut Vec<Fault>,
) -> Result<(), Memory>
    ensures { IfOk result (λ _. faults.new.items ≡ faults.old.items
        ++ faults_on mode AlarmKind.U5 (λ s. accesses.bounds_of N.ops sizes.now n
        (spec.targets_of N.ops [] (spec.pointer N.ops (given.on x.now s))))) }
{
    let left = bounds_of(sizes, n, targets(&x.left));
    let right = bounds_of(sizes, n, targets(&x.right));
    note(faults, mode, AlarmKind::U5, left, right)
}

fn note_odd<N: Num>(
    mode: Mode,
    n: u32,
    x: &PairValue<N>,
    faults: &mut Vec<Fault>,
) -> Result<(), Memory>
    requires { 0 < n }
    ensures { IfOk result (λ _. faults.new.items ≡ faults.old.items
        ++ faults_on mode AlarmKind.U7 (λ s. given.shown_if (accesses.may_be_odd N.ops n
        (spec.targets_of N.ops [] (spec.pointer N.ops (given.on x.now s)))))) }
{
    let left = shown_if(may_be_odd(n, targets(&x.left)));
    let right = shown_if(may_be_odd(n, targets(&x.right)));
    note(faults, mode, AlarmKind::U7, left, right)
}

// What may go wrong with an address of n bytes.
fn note_address<N: Num>(
    mode: Mode,
    sizes: &[u32],
    n: u32,
    x: &PairValue<N>,
    faults: &mut Vec<Fault>,
) -> Result<(), Memory>
    requires { 0 < n }
    ensures { IfOk result (λ _. faults.new.items ≡ faults.old.items ++ address_faults N.ops sizes.now n mode x.now) }
{
    note_null(mode, x, faults)?;
    note_bounds(mode, sizes, n, x, faults)?;
    note_odd(mode, n, x, faults)
}

fn note_reads<N: Num>(
    mode: Mode,
    left: &SideReads<N>,
    right: &SideReads<N>,
    faults: &mut Vec<Fault>,
) -> Result<(), Memory>
    ensures { IfOk result (λ _. faults.new.items ≡ faults.old.items
        ++ (faults_on mode AlarmKind.U4 (pick (given.shown_if left.now.unset) (given.shown_if right.now.unset))
        ++ faults_on mode AlarmKind.U10 (pick (given.shown_if left.now.mixed) (given.shown_if right.now.mixed)))) }
{
    note(
        faults,
        mode,
        AlarmKind::U4,
        shown_if(left.unset),
        shown_if(right.unset),
    )?;
    note(
        faults,
        mode,
        AlarmKind::U10,
        shown_if(left.mixed),
        shown_if(right.mixed),
    )
}

/// The value of a place of a scalar, by its address. Costs a search for a place, or one for each block and a look at
/// each cell between its places; and a search more for each place that no cell has whole.
pub fn load<N: Num>(
    mode: Mode,
    sizes: &[u32],
    state: &State<N>,
    what: Scalar,
    x: &PairValue<N>,
    faults: &mut Vec<Fault>,
) -> Result<PairValue<N>, Memory>
    ensures value { IfOk result (λ r. r
        ≡ (spec.load_given N.ops sizes.now what mode state.now (faultless x.now)).pair) }
    ensures faults { OnOk result (faults.new.items ≡ faults.old.items
        ++ (spec.load_given N.ops sizes.now what mode state.now (faultless x.now)).faults) }
{
    let n = ep_int::size(state.model(), what);
    note_address(mode, sizes, n, x, faults)?;
    let left = reads_at(sizes, state, Side::Left, what, &x.left)?;
    let right = reads_at(sizes, state, Side::Right, what, &x.right)?;
    note_reads(mode, &left, &right, faults)?;
    let shared = all_shared(mode, left.shared, right.shared);
    Ok(pair_on(mode, left.side, right.side, is_same_by(x, shared)))
}

fn is_same_by<N: Num>(x: &PairValue<N>, shared: bool) -> bool
    ensures { result ≡ (is_same N.ops x.now && shared) }
{
    same(x) && shared
}

// ---- the cell of a load

// The cell of exactly this type that lies at a place and surely has a value.
fn sure_cell<N: Num>(
    what: Scalar,
    spot: (u32, u32),
    x: Option<&Cell<N>>,
) -> Result<Option<Cell<N>>, Memory>
    ensures { IfOk result (λ r. r ≡ narrowed.sure_cell what spot (option_map (λ c. c.now) x.entry)) }
{
    match x {
        None => Ok(None),
        Some(x) => {
            if x.offset == spot.1 && is_same_scalar(x.what, what) && !x.maybe {
                let copy = copy_cell(x)?;
                return Ok(Some(copy));
            }
            Ok(None)
        }
    }
}

/// The cell of a load at one place, which surely has a value.
pub fn cell_of<N: Num>(
    state: &State<N>,
    side: Running,
    what: Scalar,
    spots: &[(u32, u32)],
) -> Result<Option<Cell<N>>, Memory>
    ensures value { IfOk result (λ r. r ≡ narrowed.cell_of state.now (side_of side) what spots.now) }
    ensures sort { IfOk result (λ r. IfSome r (λ c. IsOfSort c.what c.value)) }
{
    state.model();
    match spots {
        [] => Ok(None),
        [spot] => {
            let x = sure_cell(what, *spot, state.cell_at(side.cells(), spot.0, spot.1))?;
            Ok(x)
        }
        [_, _, ..] => Ok(None),
    }
}

fn same_cell<N: Num>(state: &State<N>, c: &Cell<N>) -> Result<Option<Cell<N>>, Memory>
    ensures value { IfOk result (λ r. r ≡ narrowed.again (Some c.now) state.now) }
    ensures sort { IfOk result (λ r. IfSome r (λ c. IsOfSort c.what c.value)) }
{
    state.model();
    let x = sure_cell(
        c.what,
        (c.block, c.offset),
        state.cell_at(c.side, c.block, c.offset),
    )?;
    Ok(x)
}

/// The cell of the same type and place in another state, if it is there and surely has a value.
pub fn again<N: Num>(state: &State<N>, c: &Option<Cell<N>>) -> Result<Option<Cell<N>>, Memory>
    ensures value { IfOk result (λ r. r ≡ narrowed.again c.now state.now) }
    ensures sort { IfOk result (λ r. IfSome r (λ c. IsOfSort c.what c.value)) }
{
    match c {
        None => Ok(None),
        Some(c) => same_cell(state, c),
    }
}
