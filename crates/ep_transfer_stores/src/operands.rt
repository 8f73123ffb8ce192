//! Operands of statements: what they give, and that this may be stored.

ghost use Rattle.std.specs.Prelude.{◌≡◌, ◌++◌, IfOk, OnOk};
ghost use Rattle.ep_core.specs.ProgramView.{program_view};
ghost use Rattle.ep_core.specs.View.{expr_view, place_view};
ghost use Rattle.ep_evaluation.specs.Evaluation.{place};
ghost use Rattle.ep_transfers.specs.Transfers as spec;
ghost use Rattle.ep_transfer_fills.specs.Waiting.{SideFits};
ghost use Rattle.ep_transfer_stores.specs.Typed.{IsExpr, IsPlace};

use ep_core::program::CoreProgram;
use ep_core::tree::{Expr, Place};
use ep_domain::Num;
use ep_equalities::{Fault, Mode, PairValue};
use ep_evaluation::evaluation_laws;
use ep_int::{Memory, Scalar};
use ep_states::State;

/// The value of an expression whose values are of a scalar. Its faults are added to those that are there.
pub fn typed_value<N: Num>(
    program: &CoreProgram,
    sizes: &[u32],
    what: Scalar,
    e: &Expr,
    state: &State<N>,
    mode: Mode,
    faults: &mut Vec<Fault>,
) -> Result<PairValue<N>, Memory>
    requires sizes { sizes.now ≡ spec.sizes N.ops (program_view program.now) }
    requires model { state.now.model ≡ (program_view program.now).types.model }
    requires typed { IsExpr (program_view program.now) what (expr_view e.now) }
    ensures value { IfOk result (λ r. r
        ≡ (spec.gives N.ops (program_view program.now) (expr_view e.now) mode state.now).pair) }
    ensures left { IfOk result (λ r. SideFits state.now what r.left) }
    ensures right { IfOk result (λ r. SideFits state.now what r.right) }
    ensures faults { OnOk result (faults.new.items ≡ faults.old.items
        ++ (spec.gives N.ops (program_view program.now) (expr_view e.now) mode state.now).faults) }
{
    evaluation_laws::<N>();
    state.model();
    let value = ep_eval::eval(e, sizes, state, mode, faults)?;
    Ok(value)
}

/// The address of a place. Its faults are added to those that are there.
pub fn place_at<N: Num>(
    program: &CoreProgram,
    sizes: &[u32],
    a: &Place,
    state: &State<N>,
    mode: Mode,
    faults: &mut Vec<Fault>,
) -> Result<PairValue<N>, Memory>
    requires sizes { sizes.now ≡ spec.sizes N.ops (program_view program.now) }
    requires typed { IsPlace (program_view program.now) (place_view a.now) }
    ensures value { IfOk result (λ r. r
        ≡ (place N.ops (spec.sizes N.ops (program_view program.now)) (place_view a.now) mode state.now).pair) }
    ensures faults { OnOk result (faults.new.items ≡ faults.old.items
        ++ (place N.ops (spec.sizes N.ops (program_view program.now)) (place_view a.now) mode state.now).faults) }
{
    let to = ep_eval::address(a, sizes, state, mode, faults)?;
    Ok(to)
}
