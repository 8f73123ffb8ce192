//! Blocks that are entered, or left.

ghost use Rattle.std.specs.Prelude.{◌≡◌, IfOk, option_map, slice_get, drop};
ghost use Rattle.ep_cells.specs.Kill.{AreLeavesIn, killed_cells};
ghost use Rattle.ep_core.specs.ProgramView.{program_view};
ghost use Rattle.ep_core.specs.View.{block_view};
ghost use Rattle.ep_layout.specs.Table as table;
ghost use Rattle.ep_transfers.specs.Transfers as spec;

use ep_bicells::changes::Step;
use ep_bitslice::Side;
use ep_cell_changes::entry::entry_cells;
use ep_cells::kill_laws;
use ep_core::program::{BlockInfo, CoreProgram};
use ep_domain::Num;
use ep_equalities::Mode;
use ep_int::Memory;
use ep_layout::Leaf;
use ep_states::State;
use std::alloc::Global;

fn cells_of_mode(mode: Mode) -> Side
    ensures { result ≡ spec.cells_of_mode mode }
{
    match mode {
        Mode::Both => Side::Shared,
        Mode::Left => Side::Left,
        Mode::Right => Side::Right,
    }
}

/// The leaves of a block's type, in order.
pub(crate) fn leaves_of(program: &CoreProgram, block: &BlockInfo) -> Result<Vec<Leaf>, Memory>
    ensures { IfOk result (λ v. v.items ≡ table.leaves (program_view program.now).types block.now.ty) }
{
    if block.ty >= program.types.type_count() {
        return Ok(Vec::new(*program.blocks.allocator()));
    }
    let leaves = program.types.leaves(block.ty)?;
    Ok(leaves)
}

// Changes the state's parts where they stand.
fn killed<N: Num>(
    side: Side,
    number: u32,
    leaves: &[Leaf],
    size: u32,
    state: State<N>,
) -> Result<State<N>, Memory>
    requires { AreLeavesIn state.model 0 size leaves.now }
    ensures { IfOk result (λ s. s
        ≡ record state { cells = killed_cells state.model side number leaves.now size state.cells }) }
{
    kill_laws::<N>();
    let alloc = state.allocator();
    let model = state.model();
    let new = entry_cells(alloc, model, side, number, leaves, size)?;
    state.after(&Step::Kill(side, number), new)
}

// One that the program lacks has no bytes.
fn killed_block<N: Num>(
    program: &CoreProgram,
    side: Side,
    number: u32,
    state: State<N>,
) -> Result<State<N>, Memory>
    requires model { state.model ≡ (program_view program.now).types.model }
    ensures { IfOk result (λ s. s ≡ spec.killed_block N.ops (program_view program.now) side number
        (slice_get (program_view program.now).blocks number) state) }
{
    match program.blocks.get(number as usize) {
        None => killed(side, number, &[], 0, state),
        Some(block) => {
            let leaves = leaves_of(program, block)?;
            killed(side, number, &leaves, block.size, state)
        }
    }
}

/// Blocks are entered, or left, in turn on the running sides: their cells are as on entry, and pointers into them are
/// undefined. Each costs its cells, those that mention or point to them, and a look at all cells for pointers.
pub fn entered<N: Num>(
    program: &CoreProgram,
    mode: Mode,
    blocks: &[u32],
    state: State<N>,
) -> Result<State<N>, Memory>
    requires model { state.model ≡ (program_view program.now).types.model }
    ensures { IfOk result (λ s. s ≡ spec.entered N.ops (program_view program.now) mode blocks.now state) }
{
    let side = cells_of_mode(mode);
    let mut after = state;
    for number in blocks {
        after = killed_block(program, side, *number, after)?;
    }
    Ok(after)
}
