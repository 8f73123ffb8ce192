//! Each kind of statement without statements in it.

ghost use Rattle.std.specs.Prelude.{◌≡◌, ◌++◌, true, IfOk, OnOk, None};
ghost use Rattle.std.specs.Option.{option_map, option_map_or};
ghost use Rattle.ep_core.specs.Program as core;
ghost use Rattle.ep_core.specs.ProgramView.{program_view};
ghost use Rattle.ep_core.specs.View.{expr_view, what_view};
ghost use Rattle.ep_core.specs.WellFormed.{int_type_of};
ghost use Rattle.ep_flows.specs.View.{is_simple, simple_of};
ghost use Rattle.ep_flows.specs.Typed.{IsTypedSimple};
ghost use Rattle.ep_transfers.specs.Transfers as spec;
ghost use Rattle.ep_transfer_stores.specs.Typed.{IsExpr};

use crate::objects::{clear, copy_aggregate};
use ep_core::program::CoreProgram;
use ep_core::tree::{Expr, Stmt, What};
use ep_domain::Num;
use ep_equalities::{Fault, Mode};
use ep_eval_parts::own_types;
use ep_int::{Memory, Scalar};
use ep_states::State;
use ep_transfer_copies::copy;
use ep_transfer_stores::{
    assign, evaluate, fill, give_back, input, output, read_bytes, typed_value, write_bytes,
};

// What values an expression has that is evaluated alone.
fn own_scalar(e: &Expr) -> Scalar
    ensures { result ≡ option_map_or Scalar.Int (int_type_of (expr_view e.now)) Scalar.Pointer }
{
    match own_types::int_type_of(e) {
        None => Scalar::Pointer,
        Some(t) => Scalar::Int(t),
    }
}

// So many bytes are copied to the first address, from the second.
fn copy_bytes<N: Num>(
    program: &CoreProgram,
    sizes: &[u32],
    mode: Mode,
    to: &Expr,
    from: &Expr,
    bytes: u32,
    state: State<N>,
    faults: &mut Vec<Fault>,
) -> Result<Option<State<N>>, Memory>
    requires sizes { sizes.now ≡ spec.sizes N.ops (program_view program.now) }
    requires model { state.model ≡ (program_view program.now).types.model }
    requires to { IsExpr (program_view program.now) Scalar.Pointer (expr_view to.now) }
    requires from { IsExpr (program_view program.now) Scalar.Pointer (expr_view from.now) }
    ensures next { IfOk result (λ r. r ≡ (spec.simple_step N.ops (program_view program.now) mode None
        (core.copy_bytes (expr_view to.now) (expr_view from.now) bytes) state).next) }
    ensures faults { OnOk result (faults.new.items
        ≡ faults.old.items ++ (spec.simple_step N.ops (program_view program.now)
        mode None (core.copy_bytes (expr_view to.now) (expr_view from.now) bytes) state).faults) }
{
    let what = Scalar::Pointer;
    let target = typed_value(program, sizes, what, to, &state, mode, faults)?;
    let source = typed_value(program, sizes, what, from, &state, mode, faults)?;
    let next = copy(mode, sizes, bytes, None, &target, &source, state, faults)?;
    Ok(next)
}

// A function is left, with its value where it has one.
fn leave<N: Num>(
    program: &CoreProgram,
    sizes: &[u32],
    mode: Mode,
    returns: Option<(u32, Scalar)>,
    e: &Option<Expr>,
    state: State<N>,
    faults: &mut Vec<Fault>,
) -> Result<Option<State<N>>, Memory>
    requires sizes { sizes.now ≡ spec.sizes N.ops (program_view program.now) }
    requires model { state.model ≡ (program_view program.now).types.model }
    requires typed { IsTypedSimple (program_view program.now) returns (core.returns (option_map expr_view e.now)) }
    ensures next { IfOk result (λ r. r ≡ (spec.simple_step N.ops (program_view program.now) mode returns
        (core.returns (option_map expr_view e.now)) state).next) }
    ensures faults { OnOk result (faults.new.items
        ≡ faults.old.items ++ (spec.simple_step N.ops (program_view program.now)
        mode returns (core.returns (option_map expr_view e.now)) state).faults) }
{
    match e {
        None => Ok(Some(state)),
        Some(e) => match returns {
            None => Ok(None),
            Some(home) => give_back(program, sizes, mode, home, e, state, faults),
        },
    }
}

/// What is known of two memories after a statement without statements in it; `returns` is the block and the type of
/// the function's result. None is left where a running side doesn't go on. The faults are added to those that are
/// there.
pub fn simple<N: Num>(
    program: &CoreProgram,
    sizes: &[u32],
    mode: Mode,
    returns: Option<(u32, Scalar)>,
    s: &Stmt,
    state: State<N>,
    faults: &mut Vec<Fault>,
) -> Result<Option<State<N>>, Memory>
    requires sizes { sizes.now ≡ spec.sizes N.ops (program_view program.now) }
    requires model { state.model ≡ (program_view program.now).types.model }
    requires simple { is_simple (what_view s.now.what) ≡ true }
    requires typed { IsTypedSimple (program_view program.now) returns (simple_of (what_view s.now.what)) }
    ensures next { IfOk result (λ r. r ≡ (spec.simple_step N.ops (program_view program.now) mode returns
        (simple_of (what_view s.now.what)) state).next) }
    ensures faults { OnOk result (faults.new.items
        ≡ faults.old.items ++ (spec.simple_step N.ops (program_view program.now)
        mode returns (simple_of (what_view s.now.what)) state).faults) }
{
    match &s.what {
        What::Nothing => Ok(Some(state)),
        What::Eval(e) => evaluate(program, sizes, mode, own_scalar(e), e, state, faults),
        What::Assign(what, a, e) => assign(program, sizes, mode, *what, a, e, state, faults),
        What::Clear(a, ty) => clear(program, sizes, mode, a, *ty, state, faults),
        What::CopyAggregate(to, from, ty) => {
            copy_aggregate(program, sizes, mode, to, from, *ty, state, faults)
        }
        What::CopyBytes(to, from, n) => {
            copy_bytes(program, sizes, mode, to, from, *n, state, faults)
        }
        What::Fill(to, byte, n) => fill(program, sizes, mode, to, byte, *n, state, faults),
        What::Input(t, dest) => input(program, sizes, mode, *t, dest, state, faults),
        What::Output(t, e) => output(program, sizes, mode, *t, e, state, faults),
        What::ReadBytes(to, n) => read_bytes(program, sizes, mode, to, *n, state, faults),
        What::WriteBytes(from, n) => write_bytes(program, sizes, mode, from, *n, state, faults),
        What::Return(e) => leave(program, sizes, mode, returns, e, state, faults),
        // None of these comes here.
        What::Call(_, _, _)
        | What::If(_, _, _)
        | What::Loop(_, _, _, _)
        | What::Break
        | What::Continue
        | What::ByOrder(_, _, _)
        | What::Scope(_, _) => Ok(None),
    }
}
