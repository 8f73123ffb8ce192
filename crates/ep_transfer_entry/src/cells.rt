//! The cells of globals and of main's result as they begin.

ghost use Rattle.std.specs.Prelude.{◌≡◌, ◌++◌, ◌||◌, true, Some, IfOk, slice_get};
ghost use Rattle.ep_int.specs.Types.{InRange};
ghost use Rattle.ep_layout.specs.Table as table;
ghost use Rattle.ep_core.specs.Exec.{result_in};
ghost use Rattle.ep_core.specs.Runs.{is_result};
ghost use Rattle.ep_core.specs.ProgramView.{program_view};
ghost use Rattle.ep_core.specs.View.{block_view};
ghost use Rattle.ep_transfers.specs.Ends.{first_from, first_of_block, first_of_blocks};
ghost use Rattle.ep_transfer_entry.specs.First as first;

use crate::values::{first_number, first_values};
use ep_bitslice::{BoxedForm, Form, Side};
use ep_cell_changes::entry::entry_cells;
use ep_cell_rows::rows::push;
use ep_cells::{Cell, Value};
use ep_core::program::{BlockInfo, CoreProgram};
use ep_domain::Num;
use ep_int::{IntType, Memory, Scalar};
use ep_pointers::PtrValue;
use std::alloc::Global;
use std::collections::BTreeMap;

fn number_cell<N: Num>(
    alloc: Global,
    block: u32,
    offset: u32,
    t: IntType,
    v: i128,
) -> Result<Cell<N>, Memory>
    requires { InRange t v }
    ensures { IfOk result (λ c. c ≡ first.cell_with N.ops v block offset (Scalar.Int t)) }
{
    let form = BoxedForm::new(alloc, Form::constant(t, v))?;
    Ok(Cell {
        side: Side::Shared,
        block,
        offset,
        what: Scalar::Int(t),
        value: Some(Value::Num(N::single(v))),
        maybe: false,
        form: Some(form),
    })
}

fn cell_with<N: Num>(
    alloc: Global,
    block: u32,
    offset: u32,
    what: Scalar,
    v: i128,
) -> Result<Cell<N>, Memory>
    requires { first.IsOfType what v }
    ensures { IfOk result (λ c. c ≡ first.cell_with N.ops v block offset what) }
{
    match what {
        Scalar::Int(t) => number_cell(alloc, block, offset, t, v),
        Scalar::Pointer => Ok(Cell {
            side: Side::Shared,
            block,
            offset,
            what: Scalar::Pointer,
            value: Some(Value::Ptr(PtrValue::null(alloc))),
            maybe: false,
            form: None,
        }),
    }
}

// The cells of a global block, or of main's result: one for each leaf and for each byte beside them.
fn push_block<N: Num>(
    out: &mut Vec<Cell<N>>,
    program: &CoreProgram,
    values: &BTreeMap<(u32, u32), i128>,
    number: u32,
    block: &BlockInfo,
) -> Result<(), Memory>
    requires values { first.HasFirst program.now.init.items values.now }
    requires block { slice_get (program_view program.now).blocks number ≡ Some (block_view block.now) }
    requires begins { (block.now.global || is_result (result_in
        (slice_get (program_view program.now).functions program.now.main)) number) ≡ true }
    ensures { IfOk result (λ _. out.new.items ≡ out.old.items ++ first_from N.ops (program_view program.now) number
        (table.leaves (program_view program.now).types block.now.ty) 0 block.now.size) }
{
    let alloc = *out.allocator();
    let model = program.types.model();
    let leaves = program.types.leaves(block.ty)?;
    let undefined: Vec<Cell<N>> = entry_cells(
        alloc,
        model,
        Side::Shared,
        number,
        &leaves,
        block.size,
    )?;
    for c in &undefined {
        let v = first_number(values, c.block, c.offset);
        push(out, cell_with(alloc, c.block, c.offset, c.what, v)?)?;
    }
    Ok(())
}

fn is_main_result(program: &CoreProgram, number: u32) -> bool
    ensures { result ≡ is_result (result_in (slice_get (program_view program.now).functions program.now.main)) number }
{
    match program.functions.get(program.main as usize) {
        None => false,
        Some(main) => match main.result {
            None => false,
            Some(at) => at.0 == number,
        },
    }
}

// Nothing where the block is neither.
fn push_first<N: Num>(
    out: &mut Vec<Cell<N>>,
    program: &CoreProgram,
    values: &BTreeMap<(u32, u32), i128>,
    number: u32,
    block: &BlockInfo,
) -> Result<(), Memory>
    requires values { first.HasFirst program.now.init.items values.now }
    requires block { slice_get (program_view program.now).blocks number ≡ Some (block_view block.now) }
    ensures { IfOk result (λ _. out.new.items
        ≡ out.old.items ++ first_of_block N.ops (program_view program.now) number (block_view block.now)) }
{
    if block.global || is_main_result(program, number) {
        return push_block(out, program, values, number, block);
    }
    Ok(())
}

/// The first cells of all blocks in order. Costs their bytes, each with a search for its first value.
pub(crate) fn first_cells<N: Num>(
    alloc: Global,
    program: &CoreProgram,
) -> Result<Vec<Cell<N>>, Memory>
    ensures { IfOk result (λ v. v.items
        ≡ first_of_blocks N.ops (program_view program.now) 0 (program_view program.now).blocks) }
{
    let values = first_values(alloc, &program.init)?;
    let mut out = Vec::new(alloc);
    let mut number = 0u32;
    for block in &program.blocks {
        push_first(&mut out, program, &values, number, block)?;
        number += 1;
    }
    Ok(out)
}
