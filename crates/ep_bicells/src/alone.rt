//! One cell comes apart or goes, and the forms that mention it follow.

ghost use Rattle.std.specs.Prelude.{◌≡◌, ◌++◌, map, if◌then◌else◌, IfOk, None, Some};
ghost use Rattle.ep_bitslice.specs.Bits.{mentions};
ghost use Rattle.ep_bitslice.specs.Segments.{bits, normal};
ghost use Rattle.ep_cells.specs.Cells.{each_becomes, with_side};
ghost use Rattle.ep_cells.specs.Forms.{form_after, reformed};
ghost use Rattle.ep_cells.specs.Weaken.{first_part as the_first_part};
ghost use Rattle.ep_reads.specs.Split.{left_by_split, fate_by_split};
ghost use Rattle.ep_reads.specs.Unify.{is_byte, left_by_crossing, fate_by_crossing};
ghost use Rattle.ep_bicells.specs.Steps.{fate_to};

use ep_bitslice::{BoxedForm, CellName, Form, Side};
use ep_cell_rows::places::{first_part, is_same_cell, side_without};
use ep_cell_rows::rows::push;
use ep_cell_rows::values::{boxed_like, copy_value};
use ep_cells::Cell;
use ep_domain::Num;
use ep_int::{IntType, Memory, Scalar};
use std::alloc::Global;

// ---- forms

fn name_on<N: Num>(x: &Cell<N>, t: IntType, side: Side) -> CellName
    ensures { result ≡ record { side = side; block = x.now.block; offset = x.now.offset; t = t } }
{
    CellName {
        side,
        block: x.block,
        offset: x.offset,
        t,
    }
}

fn form_without(form: &Form, name: &CellName) -> Option<Form>
    ensures value { result ≡ (if mentions name.now (bits form.now) then None else Some form.now) }
    ensures normal { normal (bits form.now) ≡ form.now }
{
    form.segments();
    if form.mentions(name) {
        None
    } else {
        Some(form.copy())
    }
}

fn form_by_integer<N: Num>(form: &Form, x: &Cell<N>, t: IntType, to: Option<Side>) -> Option<Form>
    requires { x.now.what ≡ Scalar.Int t }
    ensures { result ≡ form_after (fate_to to x.now) (Some form.now) }
{
    let name = name_on(x, t, x.side);
    match to {
        None => form_without(form, &name),
        Some(side) => Some(form.rename(&name, &name_on(x, t, side))),
    }
}

// A pointer is mentioned nowhere.
fn form_to<N: Num>(form: &Form, x: &Cell<N>, to: Option<Side>) -> Option<Form>
    ensures { result ≡ form_after (fate_to to x.now) (Some form.now) }
{
    match x.what {
        Scalar::Int(t) => form_by_integer(form, x, t, to),
        Scalar::Pointer => {
            form.segments();
            Some(form.copy())
        }
    }
}

fn boxed_to<N: Num>(
    form: &Option<BoxedForm>,
    x: &Cell<N>,
    to: Option<Side>,
) -> Result<Option<BoxedForm>, Memory>
    ensures { IfOk result (λ f. f ≡ form_after (fate_to to x.now) form.now) }
{
    match form {
        None => Ok(None),
        Some(form) => boxed_like(form, form_to(form.form(), x, to)),
    }
}

// ---- cells, with their forms where mentions of x go on as mentions of what is on a side

fn reformed_on<N: Num>(
    x: &Cell<N>,
    to: Option<Side>,
    y: &Cell<N>,
    side: Side,
) -> Result<Cell<N>, Memory>
    ensures { IfOk result (λ z. z ≡ reformed (fate_to to x.now) (record y.now { side = side })) }
{
    Ok(Cell {
        side,
        block: y.block,
        offset: y.offset,
        what: y.what,
        value: copy_value(&y.value)?,
        maybe: y.maybe,
        form: boxed_to(&y.form, x, to)?,
    })
}

/// The cells with their forms where mentions of x go on as mentions of what is on a side, or go.
pub fn all_reformed<N: Num>(
    alloc: Global,
    x: &Cell<N>,
    to: Option<Side>,
    cells: &[Cell<N>],
) -> Result<Vec<Cell<N>>, Memory>
    ensures { IfOk result (λ v. v.items ≡ map (reformed (fate_to to x.now)) cells.now) }
{
    let mut out = Vec::with_capacity(alloc, cells.len()).map_err(|_| Memory)?;
    for y in cells {
        push(&mut out, reformed_on(x, to, y, y.side)?)?;
    }
    Ok(out)
}

fn push_on<N: Num>(
    out: &mut Vec<Cell<N>>,
    x: &Cell<N>,
    to: Option<Side>,
    y: &Cell<N>,
    side: Option<Side>,
) -> Result<(), Memory>
    ensures { IfOk result (λ _. out.new.items
        ≡ out.old.items ++ map (reformed (fate_to to x.now)) (with_side y.now side)) }
{
    match side {
        None => Ok(()),
        Some(side) => push(out, reformed_on(x, to, y, side)?),
    }
}

// ---- a cell is split on a side

fn push_left_by_split<N: Num>(
    out: &mut Vec<Cell<N>>,
    side: Side,
    x: &Cell<N>,
    y: &Cell<N>,
) -> Result<(), Memory>
    ensures { IfOk result (λ _. out.new.items
        ≡ out.old.items ++ map (reformed (fate_by_split side x.now)) (left_by_split side x.now y.now)) }
{
    let to = side_without(side, x.side);
    if is_same_cell(y, x) {
        push_on(out, x, to, y, side_without(side, y.side))
    } else {
        push_on(out, x, to, y, Some(y.side))
    }
}

/// What is left of cells where one is split on a side.
pub fn left_by_split<N: Num>(
    alloc: Global,
    side: Side,
    x: &Cell<N>,
    cells: &[Cell<N>],
) -> Result<Vec<Cell<N>>, Memory>
    ensures { IfOk result (λ v. v.items
        ≡ map (reformed (fate_by_split side x.now)) (each_becomes (left_by_split side x.now) cells.now)) }
{
    let mut out = Vec::with_capacity(alloc, cells.len()).map_err(|_| Memory)?;
    for y in cells {
        push_left_by_split(&mut out, side, x, y)?;
    }
    Ok(out)
}

// ---- a cell goes

fn push_left<N: Num>(
    out: &mut Vec<Cell<N>>,
    x: &Cell<N>,
    to: Option<Side>,
    y: &Cell<N>,
) -> Result<(), Memory>
    ensures { IfOk result (λ _. out.new.items
        ≡ out.old.items ++ map (reformed (fate_to to x.now)) (left_by_crossing x.now y.now)) }
{
    if is_same_cell(y, x) {
        Ok(())
    } else {
        push_on(out, x, to, y, Some(y.side))
    }
}

/// What is left of cells where one goes, and mentions of it go on as mentions of what is on a side, or go too.
pub fn left_without<N: Num>(
    alloc: Global,
    x: &Cell<N>,
    to: Option<Side>,
    cells: &[Cell<N>],
) -> Result<Vec<Cell<N>>, Memory>
    ensures { IfOk result (λ v. v.items
        ≡ map (reformed (fate_to to x.now)) (each_becomes (left_by_crossing x.now) cells.now)) }
{
    let mut out = Vec::with_capacity(alloc, cells.len()).map_err(|_| Memory)?;
    for y in cells {
        push_left(&mut out, x, to, y)?;
    }
    Ok(out)
}

// ---- a cell is crossed

fn is_byte_type(t: IntType) -> bool
    ensures { result ≡ is_byte (Scalar.Int t) }
{
    match t {
        IntType::I8 => false,
        IntType::U8 => true,
        IntType::I16 => false,
        IntType::U16 => false,
        IntType::I32 => false,
        IntType::U32 => false,
        IntType::I64 => false,
        IntType::U64 => false,
    }
}

fn is_byte(what: Scalar) -> bool
    ensures { result ≡ is_byte what }
{
    match what {
        Scalar::Int(t) => is_byte_type(t),
        Scalar::Pointer => false,
    }
}

// On which side mentions of a crossed cell go on.
fn side_of_crossed<N: Num>(x: &Cell<N>) -> Option<Side>
    ensures { result ≡ (if is_byte x.now.what then Some (the_first_part x.now.side) else None) }
{
    if is_byte(x.what) {
        Some(first_part(x.side))
    } else {
        None
    }
}

/// What is left of cells where one is crossed.
pub fn left_by_crossing<N: Num>(
    alloc: Global,
    x: &Cell<N>,
    cells: &[Cell<N>],
) -> Result<Vec<Cell<N>>, Memory>
    ensures { IfOk result (λ v. v.items
        ≡ map (reformed (fate_by_crossing x.now)) (each_becomes (left_by_crossing x.now) cells.now)) }
{
    let left = left_without(alloc, x, side_of_crossed(x), cells)?;
    Ok(left)
}

/// The cells with their forms where one is crossed.
pub fn all_reformed_by_crossing<N: Num>(
    alloc: Global,
    x: &Cell<N>,
    cells: &[Cell<N>],
) -> Result<Vec<Cell<N>>, Memory>
    ensures { IfOk result (λ v. v.items ≡ map (reformed (fate_by_crossing x.now)) cells.now) }
{
    let all = all_reformed(alloc, x, side_of_crossed(x), cells)?;
    Ok(all)
}
