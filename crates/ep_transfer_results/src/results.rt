//! Results of calls, and of main.

ghost use Rattle.std.specs.Prelude.{◌≡◌, ◌++◌, ◌&&◌, false, IfOk, OnOk};
ghost use Rattle.std.specs.List.{list_all};
ghost use Rattle.ep_core.specs.ProgramView.{program_view};
ghost use Rattle.ep_core.specs.View.{function_view};
ghost use Rattle.ep_equalities.specs.Same.{is_same};
ghost use Rattle.ep_transfers.specs.Calls as spec;
ghost use Rattle.ep_transfers.specs.Ends as ends;
ghost use Rattle.ep_transfers.specs.Places as places_spec;
ghost use Rattle.ep_transfers.specs.Transfers.{sizes as sizes_of, differ_faults};
ghost use Rattle.ep_transfer_writes.specs.Waiting.{SideFits};

use ep_core::program::{CoreProgram, Function};
use ep_domain::Num;
use ep_equalities::{Fault, Mode, PairValue, same};
use ep_eval_loads::loads::load;
use ep_eval_sides::operators::block;
use ep_int::{Memory, Scalar};
use ep_reads::read_laws;
use ep_states::State;
use ep_transfer_outputs::note_difference;
use ep_transfer_places::places::has_values;

/// What the block of a result has. Its faults are added to those that are there.
pub fn loaded_result<N: Num>(
    program: &CoreProgram,
    sizes: &[u32],
    mode: Mode,
    home: (u32, Scalar),
    state: &State<N>,
    faults: &mut Vec<Fault>,
) -> Result<PairValue<N>, Memory>
    requires sizes { sizes.now ≡ sizes_of N.ops (program_view program.now) }
    requires model { state.now.model ≡ (program_view program.now).types.model }
    ensures value { IfOk result (λ r. r
        ≡ (spec.loaded_result N.ops (program_view program.now) mode home state.now).pair) }
    ensures left { IfOk result (λ r. SideFits state.now home.1 r.left) }
    ensures right { IfOk result (λ r. SideFits state.now home.1 r.right) }
    ensures faults { OnOk result (faults.new.items ≡ faults.old.items
        ++ (spec.loaded_result N.ops (program_view program.now) mode home state.now).faults) }
{
    read_laws::<N>();
    state.model();
    let place = block(state.allocator(), mode, home.0)?;
    let value = load(mode, sizes, state, home.1, &place, faults)?;
    Ok(value)
}

// ---- main

fn is_quiet(faults: &[Fault]) -> bool
    ensures { result ≡ list_all (λ (f : Fault). false) faults.now }
{
    match faults {
        [] => true,
        [_, ..] => false,
    }
}

fn is_sure<N: Num>(v: &PairValue<N>, faults: &[Fault]) -> bool
    ensures { result ≡ (is_same N.ops v.now
        && (places_spec.has_values Mode.Both v.now && list_all (λ (f : Fault). false) faults.now)) }
{
    let quiet = has_values(Mode::Both, v) & is_quiet(faults);
    same(v) & quiet
}

fn ended_with<N: Num>(
    program: &CoreProgram,
    sizes: &[u32],
    home: (u32, Scalar),
    state: &State<N>,
    faults: &mut Vec<Fault>,
) -> Result<(), Memory>
    requires sizes { sizes.now ≡ sizes_of N.ops (program_view program.now) }
    requires model { state.now.model ≡ (program_view program.now).types.model }
    ensures { IfOk result (λ _. faults.new.items ≡ faults.old.items ++ differ_faults N.ops
        (ends.is_sure_result N.ops (program_view program.now)
        (spec.loaded_result N.ops (program_view program.now) Mode.Both home state.now))
        (spec.loaded_result N.ops (program_view program.now) Mode.Both home state.now).pair) }
{
    let mut own = Vec::new(state.allocator());
    let v = loaded_result(program, sizes, Mode::Both, home, state, &mut own)?;
    let sure = is_sure(&v, &own);
    note_difference(sure, &v, faults)?;
    Ok(())
}

/// Main has ended: the fault of a result that may differ, or may be no value. It is added to those that are there.
pub fn ended<N: Num>(
    program: &CoreProgram,
    sizes: &[u32],
    f: &Function,
    state: &State<N>,
    faults: &mut Vec<Fault>,
) -> Result<(), Memory>
    requires sizes { sizes.now ≡ sizes_of N.ops (program_view program.now) }
    requires model { state.now.model ≡ (program_view program.now).types.model }
    ensures { IfOk result (λ _. faults.new.items ≡ faults.old.items
        ++ ends.ended_faults N.ops (program_view program.now) (function_view f.now) state.now) }
{
    match f.result {
        None => Ok(()),
        Some(home) => ended_with(program, sizes, home, state, faults),
    }
}
