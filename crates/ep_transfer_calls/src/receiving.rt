//! Results go to their places.

ghost use Rattle.std.specs.Prelude.{◌≡◌, ◌++◌, IfOk, OnOk, Some};
ghost use Rattle.std.specs.Option.{option_map};
ghost use Rattle.ep_core.specs.ProgramView.{program_view};
ghost use Rattle.ep_core.specs.View.{dest_view, function_view, place_view};
ghost use Rattle.ep_eval_sides.specs.Sides.{faultless};
ghost use Rattle.ep_evaluation.specs.Evaluation.{place};
ghost use Rattle.ep_transfers.specs.Calls as spec;
ghost use Rattle.ep_transfers.specs.Transfers as transfers;
ghost use Rattle.ep_transfer_calls.specs.Typed.{TakesResult};
ghost use Rattle.ep_transfer_calls.specs.Waiting.{IsWideAs};
ghost use Rattle.ep_transfer_stores.specs.Typed.{IsPlace};
ghost use Rattle.ep_transfers.specs.Taken.{AreTaken};

use ep_core::program::{CoreProgram, Function};
use ep_core::tree::Dest;
use ep_domain::Num;
use ep_equalities::{Fault, Mode, PairValue};
use ep_eval_sides::operators::conversion;
use ep_int::{Memory, Scalar};
use ep_states::State;
use ep_transfer_results::loaded_result;
use ep_transfer_stores::{assigned, place_at};
use ep_transfers::waiting_laws;

// A number is converted to the type of its place.
fn received_as<N: Num>(
    program: &CoreProgram,
    mode: Mode,
    old: Scalar,
    new: Scalar,
    v: PairValue<N>,
) -> PairValue<N>
    requires left { IsWideAs old v.left.form }
    requires right { IsWideAs old v.right.form }
    ensures { result ≡ (spec.received_as N.ops (program_view program.now) old new mode (faultless v)).pair }
{
    match old {
        Scalar::Int(u) => match new {
            Scalar::Int(t) => conversion(mode, Some(u), t, &v),
            Scalar::Pointer => v,
        },
        Scalar::Pointer => match new {
            Scalar::Int(t) => conversion(mode, None, t, &v),
            Scalar::Pointer => v,
        },
    }
}

// What a call gave goes to a place.
fn received<N: Num>(
    program: &CoreProgram,
    sizes: &[u32],
    mode: Mode,
    home: (u32, Scalar),
    d: &Dest,
    state: State<N>,
    faults: &mut Vec<Fault>,
) -> Result<Option<State<N>>, Memory>
    requires sizes { sizes.now ≡ transfers.sizes N.ops (program_view program.now) }
    requires model { state.model ≡ (program_view program.now).types.model }
    requires place { IsPlace (program_view program.now) (place_view d.now.place) }
    requires taken { AreTaken home.1 d.now.what }
    ensures next { IfOk result (λ r. r ≡ (transfers.with_two
        (spec.received_as N.ops (program_view program.now) home.1 d.now.what mode
        (spec.loaded_result N.ops (program_view program.now) mode home state))
        (place N.ops (transfers.sizes N.ops (program_view program.now)) (place_view d.now.place) mode state)
        (λ v to. transfers.assigned N.ops (transfers.sizes N.ops (program_view program.now)) mode d.now.what to v
        state)).next) }
    ensures faults { OnOk result (faults.new.items ≡ faults.old.items ++ (transfers.with_two
        (spec.received_as N.ops (program_view program.now) home.1 d.now.what mode
        (spec.loaded_result N.ops (program_view program.now) mode home state))
        (place N.ops (transfers.sizes N.ops (program_view program.now)) (place_view d.now.place) mode state)
        (λ v to. transfers.assigned N.ops (transfers.sizes N.ops (program_view program.now)) mode d.now.what to v
        state)).faults) }
{
    waiting_laws::<N>();
    state.model();
    let given = loaded_result(program, sizes, mode, home, &state, faults)?;
    let v = received_as(program, mode, home.1, d.what, given);
    let to = place_at(program, sizes, &d.place, &state, mode, faults)?;
    let next = assigned(mode, sizes, d.what, &to, v, state, faults)?;
    Ok(next)
}

/// What a call gave goes to its place, if there is one. None is left where a running side doesn't go on. The faults are
/// added to those that are there.
pub fn result<N: Num>(
    program: &CoreProgram,
    sizes: &[u32],
    mode: Mode,
    f: &Function,
    dest: &Option<Dest>,
    state: State<N>,
    faults: &mut Vec<Fault>,
) -> Result<Option<State<N>>, Memory>
    requires sizes { sizes.now ≡ transfers.sizes N.ops (program_view program.now) }
    requires model { state.model ≡ (program_view program.now).types.model }
    requires typed { TakesResult (program_view program.now) (function_view f.now) (option_map dest_view dest.now) }
    ensures next { IfOk result (λ r. r ≡ (spec.result_step N.ops (program_view program.now) mode (function_view f.now)
        (option_map dest_view dest.now) state).next) }
    ensures faults { OnOk result (faults.new.items ≡ faults.old.items ++ (spec.result_step N.ops
        (program_view program.now) mode (function_view f.now) (option_map dest_view dest.now) state).faults) }
{
    match dest {
        None => Ok(Some(state)),
        Some(d) => match f.result {
            None => Ok(None),
            Some(home) => {
                let next = received(program, sizes, mode, home, d, state, faults)?;
                Ok(next)
            }
        },
    }
}
