//! Main begins.

ghost use Rattle.std.specs.Prelude.{◌≡◌, IfOk, slice_get};
ghost use Rattle.ep_core.specs.Runs as runs;
ghost use Rattle.ep_core.specs.ProgramView.{program_view};
ghost use Rattle.ep_equalities.specs.declared.pair.Mode.TheVariants.{Both};
ghost use Rattle.ep_transfers.specs.Ends as spec;
ghost use Rattle.ep_transfers.specs.Transfers as transfers;

use crate::cells::first_cells;
use ep_core::program::CoreProgram;
use ep_domain::Num;
use ep_equalities::Mode;
use ep_int::{Memory, Order};
use ep_states::State;
use ep_transfer_blocks::entered;
use std::alloc::Global;

fn with_locals<N: Num>(program: &CoreProgram, state: State<N>) -> Result<State<N>, Memory>
    requires { state.model ≡ (program_view program.now).types.model }
    ensures { IfOk result (λ s. s ≡ transfers.entered N.ops (program_view program.now) Both
        (spec.locals_in N.ops (program_view program.now)
        (slice_get (program_view program.now).functions program.now.main)) state) }
{
    match program.functions.get(program.main as usize) {
        None => Ok(state),
        Some(main) => entered(program, Mode::Both, &main.locals, state),
    }
}

/// What is known of the cells of two machines of these byte orders where a program's main begins: one Shared cell for
/// each leaf of a global or of main's result and for each byte beside them, with its first value and the form of that
/// constant, and main's locals as on entry. Costs the bytes of these blocks, n log n for n first values, and for each
/// local what entering its block does.
pub fn entry<N: Num>(
    alloc: Global,
    program: &CoreProgram,
    left: Order,
    right: Order,
) -> Result<State<N>, Memory>
    ensures { IfOk result (λ s. (ord : runs.Side → Order) → ord runs.left ≡ left → ord runs.right ≡ right
        → s ≡ spec.entry_known N.ops (program_view program.now) ord) }
{
    let cells = first_cells(alloc, program)?;
    let first = State::with_cells(alloc, (left, right), program.types.model(), cells)?;
    with_locals(program, first)
}
