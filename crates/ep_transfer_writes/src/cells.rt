//! New cells.

ghost use Rattle.std.specs.Prelude.{◌≡◌, ◌≤◌, ◌+◌, ◌^◌, IfOk};
ghost use Rattle.ep_int.specs.Types.{size_of};
ghost use Rattle.ep_cells.specs.Cells.{place_of};
ghost use Rattle.ep_cells.specs.Forms.{common_form};
ghost use Rattle.ep_cell_ranges.specs.Follow.{FormFits};
ghost use Rattle.ep_transfers.specs.Writes as spec;
ghost use Rattle.ep_transfer_writes.specs.Waiting.{item_view, ItemFits, CanStand, side_of};

use crate::item::Item;
use crate::sides::On;
use ep_bitslice::{Form, Side};
use ep_cell_rows::values::{boxed, copy_form, copy_value, have_same_form, met_value, rises};
use ep_cells::{ByteRange, Cell, Value};
use ep_domain::Num;
use ep_int::{Memory, Model, Scalar};
use ep_states::State;
use std::alloc::Global;

/// Where a cell lies.
pub(crate) fn place_of<N: Num>(model: Model, c: &Cell<N>) -> ByteRange
    ensures { result ≡ place_of model c.now }
{
    ByteRange {
        side: c.side,
        block: c.block,
        offset: c.offset,
        bytes: ep_int::size(model, c.what),
    }
}

fn lacks<N: Num>(maybe: bool, value: &Option<Value<N>>) -> bool
    ensures { result ≡ spec.lacks maybe value.now }
{
    maybe || value.is_none()
}

fn form_unless(lacks: bool, form: Option<Form>) -> Option<Form>
    ensures { result ≡ spec.form_unless lacks form }
{
    if lacks {
        return None;
    }
    form
}

fn new_cell<N: Num>(
    alloc: Global,
    side: Side,
    spot: (u32, u32),
    what: Scalar,
    value: Option<Value<N>>,
    maybe: bool,
    form: Option<Form>,
) -> Result<Cell<N>, Memory>
    ensures { IfOk result (λ c. c ≡ spec.new_cell side spot what value maybe form) }
{
    let maybe = lacks(maybe, &value);
    let form = boxed(alloc, form_unless(maybe, form))?;
    Ok(Cell {
        side,
        block: spot.0,
        offset: spot.1,
        what,
        value,
        maybe,
        form,
    })
}

/// A cell of what one side has.
pub(crate) fn side_cell<N: Num>(
    state: &State<N>,
    side: On,
    what: Scalar,
    item: &Item<N>,
    form: Option<Form>,
    spot: (u32, u32),
) -> Result<Cell<N>, Memory>
    requires item { ItemFits state.now what (item_view item.now) }
    requires form { FormFits state.now.cells what form }
    requires room { spot.1 + size_of state.now.model what ≤ 2 ^ 32 }
    ensures value { IfOk result (λ c. c ≡ spec.side_cell N.ops (side_of side) what (item_view item.now) form spot) }
    ensures stands { IfOk result (λ c. CanStand state.now c) }
{
    let value = copy_value(&side.of(&item.pair).value)?;
    rises(&value);
    let maybe = side.maybe(item);
    let c = new_cell(
        state.allocator(),
        side.cells(),
        spot,
        what,
        value,
        maybe,
        form,
    )?;
    Ok(c)
}

/// The form that both sides have.
pub(crate) fn common_form(f: &Option<Form>, g: &Option<Form>) -> Option<Form>
    ensures { result ≡ common_form f.now g.now }
{
    if have_same_form(f, g) {
        return copy_form(f);
    }
    None
}

fn met_with<N: Num>(u: &Option<Value<N>>, v: &Option<Value<N>>) -> Result<Option<Value<N>>, Memory>
    ensures { IfOk result (λ w. w ≡ spec.value_of_same N.ops u.now v.now) }
{
    match u {
        None => copy_value(v),
        Some(_) => match v {
            None => copy_value(u),
            Some(_) => met_value(u, v),
        },
    }
}

/// A cell of what both sides have.
pub(crate) fn shared_cell<N: Num>(
    state: &State<N>,
    what: Scalar,
    item: &Item<N>,
    form: Option<Form>,
    spot: (u32, u32),
) -> Result<Cell<N>, Memory>
    requires item { ItemFits state.now what (item_view item.now) }
    requires form { FormFits state.now.cells what form }
    requires room { spot.1 + size_of state.now.model what ≤ 2 ^ 32 }
    ensures value { IfOk result (λ c. c ≡ spec.shared_cell N.ops what (item_view item.now) form spot) }
    ensures stands { IfOk result (λ c. CanStand state.now c) }
{
    let value = met_with(&item.pair.left.value, &item.pair.right.value)?;
    rises(&value);
    let maybe = item.left_maybe || item.right_maybe;
    let c = new_cell(
        state.allocator(),
        Side::Shared,
        spot,
        what,
        value,
        maybe,
        form,
    )?;
    Ok(c)
}
