//! What is read of a scalar on a side.

ghost use Rattle.std.specs.Prelude.{◌≡◌, ◌++◌, ◌∷◌, [], IfOk, IsTrue};
ghost use Rattle.std.specs.Option.{option_map};
ghost use Rattle.ep_int.specs.Types.{size_of};
ghost use Rattle.ep_int.specs.Encoding.{is_width};
ghost use Rattle.ep_cells.specs.Look.{cell_at};
ghost use Rattle.ep_reads.specs.Read.{byte_there, bytes_there, read_in_parts, read};
ghost use Rattle.ep_cell_ranges.specs.Shared.{is_shared_cell};
ghost use Rattle.ep_reads.specs.Laws.{ReadHolds, FitsRead};
ghost use Rattle.ep_scalar_reads.specs.Parts.{HaveByteForms};

use ep_bitslice::Side;
use ep_cell_rows::places::is_same_side;
use ep_cells::{ByteRange, Cell};
use ep_domain::Num;
use ep_int::{Memory, Scalar};
use ep_reads::{ReadValue, read_laws};
use ep_scalar_reads::byte::{byte_of_cell, order_on, unknown_byte};
use ep_scalar_reads::read::{is_exact, read_from_bytes, whole_read};
use ep_states::State;

// No cell has a byte behind the last offset.
fn cell_at<N: Num>(state: &State<N>, side: Side, block: u32, byte: u64) -> Option<&Cell<N>>
    ensures { option_map (λ c. c.now) result ≡ cell_at state.now.model side block byte state.now.cells }
{
    state.model();
    if byte > u64::from(u32::MAX) {
        return None;
    }
    state.cell_at(side, block, byte as u32)
}

fn byte_there<N: Num>(state: &State<N>, side: Side, block: u32, byte: u64) -> ReadValue<N>
    ensures value { result ≡ byte_there N.ops state.now side block byte }
    ensures form { HaveByteForms (result ∷ []) }
{
    state.model();
    let order = order_on(side, state.orders());
    match cell_at(state, side, block, byte) {
        None => unknown_byte(),
        Some(x) => byte_of_cell(order, x, (byte - u64::from(x.offset)) as u32),
    }
}

fn push<N: Num>(out: &mut Vec<ReadValue<N>>, r: ReadValue<N>) -> Result<(), Memory>
    ensures { IfOk result (λ _. out.new.items ≡ out.old.items ++ r ∷ []) }
{
    out.push(r).map_err(|_| Memory)
}

// The bytes of a place, the lowest first.
fn bytes_there<N: Num>(state: &State<N>, p: ByteRange) -> Result<Vec<ReadValue<N>>, Memory>
    requires { IsTrue (is_width p.bytes) }
    ensures value { IfOk result (λ v. v.items ≡ bytes_there N.ops state.now p.side p.block p.offset p.bytes) }
    ensures forms { IfOk result (λ v. HaveByteForms v.items) }
{
    let mut out = Vec::new(state.allocator());
    let order = order_on(p.side, state.orders());
    for i in 0..p.bytes {
        let byte = u64::from(p.offset) + u64::from(ep_int::place(order, p.bytes, i));
        push(&mut out, byte_there(state, p.side, p.block, byte))?;
    }
    Ok(out)
}

fn read_in_parts<N: Num>(
    state: &State<N>,
    p: ByteRange,
    what: Scalar,
) -> Result<ReadValue<N>, Memory>
    requires { p.bytes ≡ size_of state.now.model what }
    ensures { IfOk result (λ r. r ≡ read_in_parts N.ops state.now p.side p.block p.offset what) }
{
    let bytes = bytes_there(state, p)?;
    Ok(read_from_bytes(state.allocator(), what, &bytes))
}

fn read_place<N: Num>(state: &State<N>, p: ByteRange, what: Scalar) -> Result<ReadValue<N>, Memory>
    requires { p.bytes ≡ size_of state.now.model what }
    ensures { IfOk result (λ r. r ≡ read N.ops state.now p.side p.block p.offset what) }
{
    let Some(x) = cell_at(state, p.side, p.block, u64::from(p.offset)) else {
        let parts = read_in_parts(state, p, what)?;
        return Ok(parts);
    };
    if is_exact(state.model(), what, p.offset, x) {
        let whole = whole_read(what, x)?;
        return Ok(whole);
    }
    let parts = read_in_parts(state, p, what)?;
    Ok(parts)
}

/// What is read of a scalar on the left or on the right side. Costs a search for the first byte and, where no cell is
/// exactly the scalar, one for each byte.
pub fn read<N: Num>(
    state: &State<N>,
    side: Side,
    block: u32,
    offset: u32,
    what: Scalar,
) -> Result<ReadValue<N>, Memory>
    ensures value { IfOk result (λ r. r ≡ read N.ops state.now side block offset what) }
    ensures holds { IfOk result (λ r. ReadHolds N.ops state.now side block offset what r) }
    ensures fits { IfOk result (λ r. FitsRead state.now.cells what r) }
{
    read_laws::<N>();
    let bytes = ep_int::size(state.model(), what);
    let place = ByteRange {
        side,
        block,
        offset,
        bytes,
    };
    let value = read_place(state, place, what)?;
    Ok(value)
}

fn is_shared<N: Num>(state: &State<N>, side: Side, block: u32, offset: u32, what: Scalar) -> bool
    ensures { result
        ≡ is_shared_cell state.now what offset (cell_at state.now.model side block offset state.now.cells) }
{
    match state.cell_at(side, block, offset) {
        None => false,
        Some(x) => is_exact(state.model(), what, offset, x) && is_same_side(x.side, Side::Shared),
    }
}

/// What is read of a scalar on the left or on the right side, and whether a Shared cell is just the scalar. Costs a
/// search more than `read`.
pub fn read_at<N: Num>(
    state: &State<N>,
    side: Side,
    block: u32,
    offset: u32,
    what: Scalar,
) -> Result<(ReadValue<N>, bool), Memory>
    ensures value { IfOk result (λ r. r.0 ≡ read N.ops state.now side block offset what) }
    ensures shared { IfOk result (λ r. r.1
        ≡ is_shared_cell state.now what offset (cell_at state.now.model side block offset state.now.cells)) }
    ensures holds { IfOk result (λ r. ReadHolds N.ops state.now side block offset what r.0) }
    ensures fits { IfOk result (λ r. FitsRead state.now.cells what r.0) }
{
    let value = read(state, side, block, offset, what)?;
    Ok((value, is_shared(state, side, block, offset, what)))
}
