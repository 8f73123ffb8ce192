//! Cells go.

ghost use Rattle.std.specs.Prelude.{◌≡◌, IfOk};
ghost use Rattle.ep_reads.specs.Single.{is_kind_of, is_kind_among};
ghost use Rattle.ep_state_steps.specs.Ones.{left_at};

use ep_bicells::changes::Step;
use ep_cell_rows::cell::copy_cell;
use ep_cells::Cell;
use ep_domain::Num;
use ep_int::Memory;
use ep_states::State;

fn drop_one<N: Num>(state: State<N>, z: &Cell<N>) -> Result<State<N>, Memory>
    ensures { IfOk result (λ s. s ≡ left_at (is_kind_of z.now) state) }
{
    state.model();
    let step = Step::Lack(copy_cell(z)?);
    let none = Vec::new(state.allocator());
    let after = state.after(&step, none)?;
    Ok(after)
}

pub(crate) fn drop_all<N: Num>(state: State<N>, zs: &[Cell<N>]) -> Result<State<N>, Memory>
    ensures { IfOk result (λ s. s ≡ left_at (is_kind_among zs.now) state) }
{
    let mut sofar = state;
    for z in zs {
        let next = drop_one(sofar, z)?;
        sofar = next;
    }
    sofar.model();
    Ok(sofar)
}
