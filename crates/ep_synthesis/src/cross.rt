//! Cells that overlap others and aren't alike come apart.

ghost use Rattle.std.specs.Prelude.{◌≡◌, ◌++◌, ◌∷◌, [], if◌then◌else◌, IfOk};
ghost use Rattle.ep_cells.specs.Cells.{each_becomes, parts_of};
ghost use Rattle.ep_reads.specs.Unify.{is_byte, bytes_on, crossed_parts};
ghost use Rattle.ep_synthesis.specs.Parts.{known, IsSized};

use crate::split::byte_cells;
use ep_bitslice::Side;
use ep_cell_rows::cell::copy_cell;
use ep_cell_rows::rows::push;
use ep_cell_rows::values::{copy_boxed, copy_value, form_of};
use ep_cells::Cell;
use ep_domain::Num;
use ep_int::{IntType, Memory, Scalar};
use ep_scalar_reads::Machines;
use ep_scalar_reads::byte::order_on;
use std::alloc::Global;

fn is_byte(what: Scalar) -> bool
    ensures { result ≡ is_byte what }
{
    match what {
        Scalar::Int(t) => is_byte_type(t),
        Scalar::Pointer => false,
    }
}

fn is_byte_type(t: IntType) -> bool
    ensures { result ≡ is_byte (Scalar.Int t) }
{
    match t {
        IntType::I8 => false,
        IntType::U8 => true,
        IntType::I16 => false,
        IntType::U16 => false,
        IntType::I32 => false,
        IntType::U32 => false,
        IntType::I64 => false,
        IntType::U64 => false,
    }
}

fn on_side<N: Num>(x: &Cell<N>, side: Side) -> Result<Cell<N>, Memory>
    ensures { IfOk result (λ c. c ≡ record x.now { side = side }) }
{
    Ok(Cell {
        side,
        block: x.block,
        offset: x.offset,
        what: x.what,
        value: copy_value(&x.value)?,
        maybe: x.maybe,
        form: copy_boxed(&x.form)?,
    })
}

fn push_both<N: Num>(out: &mut Vec<Cell<N>>, x: &Cell<N>) -> Result<(), Memory>
    ensures { IfOk result (λ _. out.new.items ≡ (out.old.items
        ++ (record x.now { side = Side.Left }) ∷ []) ++ (record x.now { side = Side.Right }) ∷ []) }
{
    push(out, on_side(x, Side::Left)?)?;
    push(out, on_side(x, Side::Right)?)
}

fn push_parts<N: Num>(out: &mut Vec<Cell<N>>, x: &Cell<N>) -> Result<(), Memory>
    ensures { IfOk result (λ _. out.new.items ≡ out.old.items ++ parts_of x.now) }
{
    match x.side {
        Side::Left => push(out, copy_cell(x)?),
        Side::Right => push(out, copy_cell(x)?),
        Side::Shared => push_both(out, x),
    }
}

fn push_bytes<N: Num>(
    out: &mut Vec<Cell<N>>,
    alloc: Global,
    machines: Machines,
    x: &Cell<N>,
    side: Side,
) -> Result<(), Memory>
    requires { IsSized machines.model x.now }
    ensures { IfOk result (λ _. out.new.items ≡ out.old.items
        ++ bytes_on N.ops (known machines []) (record x.now { side = side })) }
{
    let part = on_side(x, side)?;
    let order = order_on(side, machines.orders);
    let form = form_of(&part.form);
    let bytes = byte_cells(alloc, machines.model, order, side, &form, &part)?;
    push_all(out, &bytes)?;
    Ok(())
}

fn push_all<N: Num>(out: &mut Vec<Cell<N>>, more: &[Cell<N>]) -> Result<(), Memory>
    ensures { IfOk result (λ _. out.new.items ≡ out.old.items ++ more.now) }
{
    for c in more {
        push(out, copy_cell(c)?)?;
    }
    Ok(())
}

fn push_bytes_of_both<N: Num>(
    out: &mut Vec<Cell<N>>,
    alloc: Global,
    machines: Machines,
    x: &Cell<N>,
) -> Result<(), Memory>
    requires { IsSized machines.model x.now }
    ensures { IfOk result (λ _. out.new.items ≡ (out.old.items
        ++ bytes_on N.ops (known machines []) (record x.now { side = Side.Left }))
        ++ bytes_on N.ops (known machines []) (record x.now { side = Side.Right })) }
{
    push_bytes(out, alloc, machines, x, Side::Left)?;
    push_bytes(out, alloc, machines, x, Side::Right)?;
    Ok(())
}

fn push_bytes_of_parts<N: Num>(
    out: &mut Vec<Cell<N>>,
    alloc: Global,
    machines: Machines,
    x: &Cell<N>,
) -> Result<(), Memory>
    requires { IsSized machines.model x.now }
    ensures { IfOk result (λ _. out.new.items ≡ out.old.items
        ++ each_becomes (bytes_on N.ops (known machines [])) (parts_of x.now)) }
{
    match x.side {
        Side::Left => {
            push_bytes(out, alloc, machines, x, Side::Left)?;
            Ok(())
        }
        Side::Right => {
            push_bytes(out, alloc, machines, x, Side::Right)?;
            Ok(())
        }
        Side::Shared => {
            push_bytes_of_both(out, alloc, machines, x)?;
            Ok(())
        }
    }
}

fn push_integer_parts<N: Num>(
    out: &mut Vec<Cell<N>>,
    alloc: Global,
    machines: Machines,
    x: &Cell<N>,
) -> Result<(), Memory>
    requires { IsSized machines.model x.now }
    ensures { IfOk result (λ _. out.new.items ≡ out.old.items ++ (if is_byte x.now.what then parts_of x.now
        else each_becomes (bytes_on N.ops (known machines [])) (parts_of x.now))) }
{
    if is_byte(x.what) {
        push_parts(out, x)
    } else {
        push_bytes_of_parts(out, alloc, machines, x)
    }
}

fn push_crossed_parts<N: Num>(
    out: &mut Vec<Cell<N>>,
    alloc: Global,
    machines: Machines,
    x: &Cell<N>,
) -> Result<(), Memory>
    requires { IsSized machines.model x.now }
    ensures { IfOk result (λ _. out.new.items ≡ out.old.items
        ++ crossed_parts N.ops (known machines []) x.now x.now.what) }
{
    match x.what {
        Scalar::Int(_) => push_integer_parts(out, alloc, machines, x),
        Scalar::Pointer => Ok(()),
    }
}

/// What a cell that others cross becomes on its sides.
pub fn crossed_parts<N: Num>(
    alloc: Global,
    machines: Machines,
    x: &Cell<N>,
) -> Result<Vec<Cell<N>>, Memory>
    requires { IsSized machines.model x.now }
    ensures { IfOk result (λ v. v.items ≡ crossed_parts N.ops (known machines []) x.now x.now.what) }
{
    let mut out = Vec::new(alloc);
    push_crossed_parts(&mut out, alloc, machines, x)?;
    Ok(out)
}
