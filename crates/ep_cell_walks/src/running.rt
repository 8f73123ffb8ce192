//! Who runs, and whether a state is told for the program.

ghost use Rattle.std.specs.Prelude.{◌≡◌, ◌&&◌, true};
ghost use Rattle.ep_core.specs.Exec as exec;
ghost use Rattle.ep_eval_loads.specs.Running as lone;
ghost use Rattle.ep_flows.specs.View.{mode_of, plan_of, side_of};
ghost use Rattle.ep_transfers.specs.Cells as cells;
ghost use Rattle.ep_transfers.specs.Guards as guards;

use ep_cell_parts::equals::is_model;
use ep_domain::Num;
use ep_equalities::Mode;
use ep_eval_loads::Running as Lone;
use ep_flows::setting::{Machine, Running, Setting};
use ep_int::Order;
use ep_states::State;

pub(crate) fn pair_mode(mode: Running) -> Mode
    ensures { result ≡ cells.mode_of (mode_of mode) }
{
    match mode {
        Running::Together => Mode::Both,
        Running::Alone(machine) => match machine {
            Machine::Left => Mode::Left,
            Machine::Right => Mode::Right,
        },
    }
}

pub(crate) fn lone(machine: Machine) -> Lone
    ensures { lone.side_of result ≡ side_of machine }
{
    match machine {
        Machine::Left => Lone::Left,
        Machine::Right => Lone::Right,
    }
}

// Whether it is told in the program's data model.
pub(crate) fn is_told_so<N: Num>(c: &Setting<'_>, state: &State<N>) -> bool
    ensures value { result ≡ cells.is_told_so N.ops (plan_of c.now).program (plan_of c.now).order state.now }
    ensures model { result ≡ true → state.now.model ≡ (plan_of c.now).program.types.model }
{
    is_model(state.model(), c.program.types.model())
}

fn is_order(a: Order, b: Order) -> bool
    ensures { result ≡ exec.is_order a b }
{
    a == b
}

fn has_orders(c: &Setting<'_>, orders: (Order, Order)) -> bool
    ensures { result ≡ (exec.is_order orders.0 c.now.left && exec.is_order orders.1 c.now.right) }
{
    is_order(orders.0, c.left) && is_order(orders.1, c.right)
}

// Whether it is a state of these machines and this program.
pub(crate) fn is_state<N: Num>(c: &Setting<'_>, state: &State<N>) -> bool
    ensures { result ≡ guards.is_state (plan_of c.now).program (plan_of c.now).order state.now }
{
    has_orders(c, state.orders()) & is_model(state.model(), c.program.types.model())
}
