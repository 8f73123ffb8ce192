//! States of so many cells.

ghost use Rattle.std.specs.Prelude.{◌≡◌, IsTrue, None};
ghost use Rattle.ep_cells.specs.States.{CanWrite};

use crate::rows::{Case, Lay, Row};
use ep_bitslice::{BoxedForm, CellName, Form, Side};
use ep_cell_changes::check::is_cell;
use ep_cell_rows::places::place_of;
use ep_cells::{Cell, Value};
use ep_congruence::Congruence;
use ep_domain::{Num, Pair};
use ep_int::{IntType, Memory, Model, Order, Scalar};
use ep_intervals::Interval;
use ep_states::State;
use std::alloc::Global;

pub(crate) type Numbers = Pair<Interval, Congruence>;

/// A block that no lay has.
pub(crate) const OTHER_BLOCK: u32 = u32::MAX;

pub(crate) fn single(i: u32) -> Numbers {
    Numbers::single(i128::from(i % 250))
}

fn type_of(lay: Lay) -> IntType {
    match lay {
        Lay::Words => IntType::U32,
        Lay::One | Lay::Many => IntType::U8,
    }
}

/// The cell in this place of the lay.
pub(crate) fn cell(lay: Lay, side: Side, i: u32, value: Numbers) -> Cell<Numbers> {
    let (block, offset) = place(lay, i);
    Cell {
        side,
        block,
        offset,
        what: Scalar::Int(type_of(lay)),
        value: Some(Value::Num(value)),
        maybe: false,
        form: None,
    }
}

/// Where a cell lies.
pub(crate) fn place(lay: Lay, i: u32) -> (u32, u32) {
    match lay {
        Lay::One => (0, i),
        Lay::Many => (i, 0),
        Lay::Words => (0, i.wrapping_mul(4)),
    }
}

/// The state of the cells of the lay, in which nothing is known.
pub(crate) fn state(alloc: Global, row: &Row) -> Result<State<Numbers>, Memory> {
    let mut cells = Vec::new(alloc);
    for i in 0..row.cells {
        let c = cell(row.lay, Side::Shared, i, Numbers::top(type_of(row.lay)));
        cells.push(c).map_err(|_| Memory)?;
    }
    let state = State::of_cells(alloc, (Order::Little, Order::Big), Model::Ilp32, cells)?;
    state.ok_or(Memory)
}

fn has_no_form(c: &Cell<Numbers>) -> bool
    ensures { IsTrue result → c.now.form ≡ None }
{
    match c.form {
        None => true,
        Some(_) => false,
    }
}

// A look at the cells about the place is enough where the cell has no form.
fn may_write(state: &State<Numbers>, c: &Cell<Numbers>) -> bool
    ensures { IsTrue result → CanWrite state.now.model c.now state.now.cells }
{
    let model = state.model();
    (is_cell(model, c) & has_no_form(c)) & !state.partly(&place_of(model, c))
}

/// Writes a cell that has no form.
pub(crate) fn write(state: &mut State<Numbers>, c: Cell<Numbers>) -> Result<(), Memory> {
    if !may_write(state, &c) {
        return Err(Memory);
    }
    state.write(c)
}

/// Writes a cell at one of several possible places.
pub(crate) fn weaken(state: &mut State<Numbers>, c: &Cell<Numbers>) -> Result<(), Memory> {
    if !is_cell(state.model(), c) {
        return Err(Memory);
    }
    match c.side {
        Side::Left => state.weaken(c, false),
        Side::Right => state.weaken(c, false),
        Side::Shared => state.weaken(c, true),
    }
}

fn write_mention(state: &mut State<Numbers>, lay: Lay, i: u32) -> Result<(), Memory> {
    let (block, offset) = place(lay, 0);
    let name = CellName {
        side: Side::Shared,
        block,
        offset,
        t: type_of(lay),
    };
    let form = BoxedForm::new(state.allocator(), Form::of_cell(name))?;
    let mut c = cell(lay, Side::Shared, i, Numbers::top(type_of(lay)));
    c.form = Some(form);
    if !state.can_write(&c)? {
        return Err(Memory);
    }
    state.write(c)
}

fn pair(state: &mut State<Numbers>, lay: Lay, i: u32) -> Result<(), Memory> {
    write(state, cell(lay, Side::Left, i, single(7)))?;
    write(state, cell(lay, Side::Right, i, single(7)))
}

fn pairs(state: &mut State<Numbers>, row: &Row, n: u32) -> Result<(), Memory> {
    let step = row.cells / n.max(1);
    for i in 0..n {
        pair(state, row.lay, step.wrapping_mul(i))?;
    }
    Ok(())
}

fn mentions(state: &mut State<Numbers>, row: &Row) -> Result<(), Memory> {
    for i in 0..20_000u32 {
        write_mention(state, row.lay, 1 + i % 300)?;
    }
    Ok(())
}

fn part_all(state: &mut State<Numbers>, row: &Row) -> Result<(), Memory> {
    for i in 0..row.cells {
        write(
            state,
            cell(row.lay, Side::Left, i, Numbers::top(type_of(row.lay))),
        )?;
    }
    Ok(())
}

fn other(alloc: Global, row: &Row) -> Result<State<Numbers>, Memory> {
    match row.case {
        Case::Copied | Case::Alone => {
            Ok(State::empty(alloc, (Order::Little, Order::Big), Model::Ilp32))
        }
        _ => state(alloc, row),
    }
}

/// A state, and another that differs from it as the row says.
pub(crate) fn states(alloc: Global, row: &Row) -> Result<(State<Numbers>, State<Numbers>), Memory> {
    let mut first = state(alloc, row)?;
    let mut second = other(alloc, row)?;
    let middle = row.cells / 2;
    let any = Numbers::top(type_of(row.lay));
    match row.case {
        Case::Equal => {}
        Case::Value => write(&mut second, cell(row.lay, Side::Shared, middle, single(3)))?,
        Case::Block => first.kill_block(Side::Shared, OTHER_BLOCK, &[], 4)?,
        Case::Parted => write(&mut second, cell(row.lay, Side::Left, middle, any))?,
        Case::AllParted => part_all(&mut second, row)?,
        Case::Pairs(n) => pairs(&mut first, row, n)?,
        Case::Mentions => mentions(&mut first, row)?,
        Case::Copied => second = first.copy()?,
        Case::Alone => {}
    }
    Ok((first, second))
}
