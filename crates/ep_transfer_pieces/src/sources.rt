//! What is read for a piece of an aggregate, at each place.

ghost use Rattle.std.specs.Prelude.{◌≡◌, ◌++◌, ◌∷◌, [], IfOk, IfSome, Some, is_some};
ghost use Rattle.std.specs.Option.{option_map};
ghost use Rattle.ep_reads.specs.Bytes.{has_targets};
ghost use Rattle.ep_transfers.specs.Copies as spec;
ghost use Rattle.ep_transfer_pieces.specs.Puts.{AreSources};
ghost use Rattle.ep_transfer_pieces.specs.Walked.{all_exact};
ghost use Rattle.ep_transfer_pieces.specs.declared.walk.Piece.TheVariants.{Nothing, Whole, Byte};

use ep_bitslice::Side;
use ep_cell_rows::places::{is_same_scalar, is_same_side};
use ep_cell_rows::values::copy_value;
use ep_cells::{Cell, Value};
use ep_domain::Num;
use ep_int::{IntType, Memory, Scalar};
use ep_pointers::PtrValue;
use ep_reads::ReadValue;
use ep_scalar_reads::byte::form_of_cell;
use ep_scalar_reads::read::is_exact;
use ep_state_synthesis::read;
use ep_states::State;
use std::alloc::Global;

/// What is read for a piece at each place, and whether a Shared cell has it whole at each of them.
#[derive(Drop)]
pub(crate) struct Sources<N> {
    pub reads: Vec<ReadValue<N>>,
    pub shared: bool,
}

// ---- a cell that begins there, of the type

fn exact_cell<N: Num>(what: Scalar, offset: u32, x: Option<&Cell<N>>) -> Option<&Cell<N>>
    ensures { option_map (λ c. c.now) result
        ≡ spec.exact_cell N.ops what offset (option_map (λ c. c.now) x.entry) }
{
    match x {
        None => None,
        Some(x) => {
            if x.offset == offset && is_same_scalar(x.what, what) {
                return Some(x);
            }
            None
        }
    }
}

// ---- one place

fn whole_source<N: Num>(x: &Cell<N>) -> Result<ReadValue<N>, Memory>
    ensures { IfOk result (λ r. r ≡ spec.whole_source N.ops x.now) }
{
    Ok(ReadValue {
        value: copy_value(&x.value)?,
        maybe: x.maybe,
        mixed: false,
        form: form_of_cell(x),
    })
}

// Some byte.
fn fragment_source<N: Num>() -> ReadValue<N>
    ensures { result ≡ spec.fragment_source N.ops }
{
    ReadValue {
        value: Some(Value::Num(N::top(IntType::U8))),
        maybe: true,
        mixed: false,
        form: None,
    }
}

fn has_targets<N: Num>(p: &PtrValue<N>) -> bool
    ensures { result ≡ has_targets p.now }
{
    p.targets().iter().any(|_t| true)
}

fn some_may_point<N: Num>(v: &Value<N>) -> bool
    ensures { result ≡ spec.may_point N.ops (Some v.now) }
{
    match v {
        Value::Num(_) => false,
        Value::Ptr(p) => has_targets(p),
    }
}

fn may_point<N: Num>(v: &Option<Value<N>>) -> bool
    ensures { result ≡ spec.may_point N.ops v.now }
{
    match v {
        None => false,
        Some(v) => some_may_point(v),
    }
}

fn byte_of<N: Num>(
    state: &State<N>,
    side: Side,
    spot: (u32, u32),
    x: Option<&Cell<N>>,
) -> Result<ReadValue<N>, Memory>
    ensures { IfOk result (λ r. r ≡ spec.byte_source N.ops state.now side spot (option_map (λ c. c.now) x.entry)) }
{
    match x {
        None => Ok(fragment_source()),
        Some(x) => {
            if may_point(&x.value) {
                return Ok(fragment_source());
            }
            read(state, side, spot.0, spot.1, Scalar::Int(IntType::U8))
        }
    }
}

// A Shared cell has it whole.
fn is_shared<N: Num>(state: &State<N>, what: Scalar, spot: (u32, u32), x: Option<&Cell<N>>) -> bool
    ensures { result ≡ spec.is_shared_whole N.ops state.now what spot (option_map (λ c. c.now) x.entry) }
{
    match x {
        None => false,
        Some(x) => is_exact(state.model(), what, spot.1, x) && is_same_side(x.side, Side::Shared),
    }
}

// ---- all places

fn push<N: Num>(out: &mut Vec<ReadValue<N>>, r: ReadValue<N>) -> Result<(), Memory>
    ensures { IfOk result (λ _. out.new.items ≡ out.old.items ++ r ∷ []) }
{
    out.push(r).map_err(|_| Memory)
}

/// Nothing is read for what lies inside of a leaf.
pub(crate) fn no_sources<N: Num>(alloc: Global) -> Sources<N>
    ensures { result.reads.items ≡ [] }
{
    Sources {
        reads: Vec::new(alloc),
        shared: false,
    }
}

/// What is read for a leaf, if each place has a cell of its type. Looks once at each place.
pub(crate) fn whole_sources<N: Num>(
    state: &State<N>,
    side: Side,
    what: Scalar,
    spots: &[(u32, u32)],
) -> Result<Option<Sources<N>>, Memory>
    ensures exact { IfOk result (λ o. is_some o ≡ all_exact N.ops state.now side what spots.now) }
    ensures sources { IfOk result (λ o. IfSome o (λ r. AreSources N.ops state.now side (Whole what) spots.now r)) }
{
    let mut reads = Vec::new(state.allocator());
    let mut shared = true;
    for q in spots {
        let x = state.cell_at(side, q.0, q.1);
        match exact_cell(what, q.1, x) {
            None => return Ok(None),
            Some(c) => {
                let here = is_shared(state, what, *q, x);
                shared = shared & here;
                push(&mut reads, whole_source(c)?)?;
            }
        }
    }
    Ok(Some(Sources { reads, shared }))
}

/// What is read for a byte. Looks once at each place, and once more where a value that points nowhere is there.
pub(crate) fn byte_sources<N: Num>(
    state: &State<N>,
    side: Side,
    spots: &[(u32, u32)],
) -> Result<Sources<N>, Memory>
    ensures { IfOk result (λ r. AreSources N.ops state.now side Byte spots.now r) }
{
    let mut reads = Vec::new(state.allocator());
    let mut shared = true;
    for q in spots {
        let x = state.cell_at(side, q.0, q.1);
        let here = is_shared(state, Scalar::Int(IntType::U8), *q, x);
        shared = shared & here;
        push(&mut reads, byte_of(state, side, *q, x)?)?;
    }
    Ok(Sources { reads, shared })
}
