//! Arguments go to parameters.

ghost use Rattle.std.specs.Prelude.{◌≡◌, ◌++◌, map, IfOk, IfSome, OnOk, option_to_list};
ghost use Rattle.ep_cells.specs.Forms.{form_after};
ghost use Rattle.ep_core.specs.Exec.{first_of};
ghost use Rattle.ep_core.specs.ProgramView.{program_view};
ghost use Rattle.ep_core.specs.View.{expr_view, function_view};
ghost use Rattle.ep_evaluation.specs.Given.{Given};
ghost use Rattle.ep_transfers.specs.Calls as spec;
ghost use Rattle.ep_transfers.specs.Transfers as transfers;
ghost use Rattle.ep_transfers.specs.Writes.{formed_pair};
ghost use Rattle.ep_transfer_calls.specs.Typed.{AreArguments, AreTyped};
ghost use Rattle.ep_transfer_calls.specs.Waiting.{AllWait, Waits};
ghost use Rattle.ep_transfers.specs.WaitingLaws.{OthersThere};

use crate::frames::{frame, members, off_frame};
use ep_core::program::{CoreProgram, Function};
use ep_core::tree::Expr;
use ep_domain::Num;
use ep_equalities::{Fault, Mode, PairValue};
use ep_eval_sides::operators::block;
use ep_evaluation::evaluation_laws;
use ep_int::{Memory, Scalar};
use ep_states::State;
use ep_transfer_blocks::entered;
use ep_transfer_stores::{assigned, typed_value};
use ep_transfers::waiting_laws;
use indexmap::IndexSet;

// The result of the call before is forgotten.
fn without_result<N: Num>(
    program: &CoreProgram,
    mode: Mode,
    home: Option<(u32, Scalar)>,
    state: State<N>,
) -> Result<State<N>, Memory>
    requires model { state.model ≡ (program_view program.now).types.model }
    ensures { IfOk result (λ s. s
        ≡ transfers.entered N.ops (program_view program.now) mode (first_of (option_to_list home)) state) }
{
    match home {
        None => Ok(state),
        Some(home) => {
            let after = entered(program, mode, &[home.0], state)?;
            Ok(after)
        }
    }
}

// What the arguments give, in order.
fn given_all<N: Num>(
    program: &CoreProgram,
    sizes: &[u32],
    mode: Mode,
    params: &[(u32, Scalar)],
    es: &[Expr],
    state: &State<N>,
    faults: &mut Vec<Fault>,
) -> Result<Vec<PairValue<N>>, Memory>
    requires sizes { sizes.now ≡ transfers.sizes N.ops (program_view program.now) }
    requires model { state.now.model ≡ (program_view program.now).types.model }
    requires typed { AreTyped (program_view program.now) params.now (map expr_view es.now) }
    ensures values { IfOk result (λ v. v.items ≡ map (λ (x : Given _). x.pair)
        (spec.given_all N.ops (program_view program.now) (map expr_view es.now) mode state.now)) }
    ensures faults { OnOk result (faults.new.items
        ≡ faults.old.items ++ spec.faults_of_all N.ops (program_view program.now)
        (spec.given_all N.ops (program_view program.now) (map expr_view es.now) mode state.now)) }
{
    let mut values = Vec::new(state.allocator());
    for i in 0..es.len() {
        let v = typed_value(program, sizes, params[i].1, &es[i], state, mode, faults)?;
        values.push(v).map_err(|_| Memory)?;
    }
    Ok(values)
}

// A parameter takes what waits for it.
fn set_one<N: Num>(
    program: &CoreProgram,
    sizes: &[u32],
    mode: Mode,
    frame: &IndexSet<u32>,
    b: (u32, Scalar),
    v: PairValue<N>,
    state: State<N>,
    faults: &mut Vec<Fault>,
) -> Result<Option<State<N>>, Memory>
    requires sizes { sizes.now ≡ transfers.sizes N.ops (program_view program.now) }
    requires waits { Waits N.ops (program_view program.now) frame.now.keys b v state }
    ensures next { IfOk result (λ r. r
        ≡ (transfers.assigned N.ops (transfers.sizes N.ops (program_view program.now)) mode b.1
        (transfers.to_block N.ops mode b.0) (formed_pair (form_after (transfers.fate_off_blocks frame.now.keys)) v)
        state).next) }
    ensures stays { IfOk result (λ r. IfSome r (OthersThere frame.now.keys state)) }
    ensures faults { OnOk result (faults.new.items ≡ faults.old.items ++ (transfers.assigned N.ops
        (transfers.sizes N.ops (program_view program.now)) mode b.1 (transfers.to_block N.ops mode b.0)
        (formed_pair (form_after (transfers.fate_off_blocks frame.now.keys)) v) state).faults) }
{
    waiting_laws::<N>();
    state.model();
    let v = off_frame(frame, v);
    let to = block(state.allocator(), mode, b.0)?;
    let next = assigned(mode, sizes, b.1, &to, v, state, faults)?;
    Ok(next)
}

// The parameters take what waits for them, in order.
fn set_all<N: Num>(
    program: &CoreProgram,
    sizes: &[u32],
    mode: Mode,
    frame: &IndexSet<u32>,
    params: &[(u32, Scalar)],
    values: Vec<PairValue<N>>,
    state: State<N>,
    faults: &mut Vec<Fault>,
) -> Result<Option<State<N>>, Memory>
    requires sizes { sizes.now ≡ transfers.sizes N.ops (program_view program.now) }
    requires waits { AllWait N.ops (program_view program.now) frame.now.keys params.now values.items state }
    ensures next { IfOk result (λ r. r ≡ (spec.bound N.ops (program_view program.now) mode params.now
        (map (formed_pair (form_after (transfers.fate_off_blocks frame.now.keys))) values.items) state).next) }
    ensures faults { OnOk result (faults.new.items
        ≡ faults.old.items ++ (spec.bound N.ops (program_view program.now) mode
        params.now (map (formed_pair (form_after (transfers.fate_off_blocks frame.now.keys))) values.items)
        state).faults) }
{
    let mut now = state;
    let mut rest = values.into_iter();
    for b in params {
        match rest.next() {
            None => return Ok(Some(now)),
            Some(v) => match set_one(program, sizes, mode, frame, *b, v, now, faults)? {
                None => return Ok(None),
                Some(after) => now = after,
            },
        }
    }
    Ok(Some(now))
}

/// A callee's result becomes undefined, its arguments are evaluated, its frame comes, and its parameters are set. None
/// is left where a running side doesn't go on. The faults are added to those that are there.
pub fn arguments<N: Num>(
    program: &CoreProgram,
    sizes: &[u32],
    mode: Mode,
    f: &Function,
    es: &[Expr],
    state: State<N>,
    faults: &mut Vec<Fault>,
) -> Result<Option<State<N>>, Memory>
    requires sizes { sizes.now ≡ transfers.sizes N.ops (program_view program.now) }
    requires model { state.model ≡ (program_view program.now).types.model }
    requires typed { AreArguments (program_view program.now) (function_view f.now) (map expr_view es.now) }
    ensures next { IfOk result (λ r. r
        ≡ (spec.arguments_step N.ops (program_view program.now) mode (function_view f.now)
        (map expr_view es.now) state).next) }
    ensures faults { OnOk result (faults.new.items ≡ faults.old.items ++ (spec.arguments_step N.ops
        (program_view program.now) mode (function_view f.now) (map expr_view es.now) state).faults) }
{
    evaluation_laws::<N>();
    waiting_laws::<N>();
    let alloc = state.allocator();
    let blocks = frame(alloc, f)?;
    let members = members(alloc, &blocks)?;
    let begun = without_result(program, mode, f.result, state)?;
    begun.model();
    let values = given_all(program, sizes, mode, &f.params, es, &begun, faults)?;
    let there = entered(program, mode, &blocks, begun)?;
    let next = set_all(
        program, sizes, mode, &members, &f.params, values, there, faults,
    )?;
    Ok(next)
}
