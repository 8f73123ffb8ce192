//! Statements on a whole object, whose type tells its bytes and leaves.

ghost use Rattle.std.specs.Prelude.{◌≡◌, ◌<◌, ◌++◌, IfOk, OnOk, length, unwrap_or};
ghost use Rattle.ep_cells.specs.Kill.{AreLeavesIn};
ghost use Rattle.ep_core.specs.Program as core;
ghost use Rattle.ep_core.specs.ProgramView.{program_view};
ghost use Rattle.ep_core.specs.View.{place_view};
ghost use Rattle.ep_layout.specs.Table as table;
ghost use Rattle.ep_transfers.specs.Transfers as spec;
ghost use Rattle.ep_transfer_stores.specs.Typed.{IsPlace};

use ep_core::program::CoreProgram;
use ep_core::tree::Place;
use ep_domain::Num;
use ep_equalities::{Fault, Mode};
use ep_int::Memory;
use ep_layout::Leaf;
use ep_states::State;
use ep_transfer_clears::cleared;
use ep_transfer_copies::copy;
use ep_transfer_stores::place_at;

// How many bytes a type has.
fn bytes_of(program: &CoreProgram, ty: u32) -> u32
    requires { ty < length (program_view program.now).types.types }
    ensures { result ≡ unwrap_or (table.size (program_view program.now).types ty) 0 }
{
    program.types.size(ty).unwrap_or(0)
}

// Its leaves, which lie in these bytes.
fn leaves_of(program: &CoreProgram, ty: u32) -> Result<Vec<Leaf>, Memory>
    requires { ty < length (program_view program.now).types.types }
    ensures value { IfOk result (λ v. v.items ≡ table.leaves (program_view program.now).types ty) }
    ensures inside { IfOk result (λ v. AreLeavesIn (program_view program.now).types.model 0
        (unwrap_or (table.size (program_view program.now).types ty) 0) v.items) }
{
    let leaves = program.types.leaves(ty)?;
    Ok(leaves)
}

/// Each leaf of a place of a type becomes 0 or null, and all its other bytes undefined.
pub(crate) fn clear<N: Num>(
    program: &CoreProgram,
    sizes: &[u32],
    mode: Mode,
    a: &Place,
    ty: u32,
    state: State<N>,
    faults: &mut Vec<Fault>,
) -> Result<Option<State<N>>, Memory>
    requires sizes { sizes.now ≡ spec.sizes N.ops (program_view program.now) }
    requires model { state.model ≡ (program_view program.now).types.model }
    requires place { IsPlace (program_view program.now) (place_view a.now) }
    requires there { ty < length (program_view program.now).types.types }
    ensures next { IfOk result (λ r. r
        ≡ (spec.simple_step N.ops (program_view program.now) mode None (core.clear (place_view a.now) ty) state).next) }
    ensures faults { OnOk result (faults.new.items ≡ faults.old.items
        ++ (spec.simple_step N.ops (program_view program.now) mode None
        (core.clear (place_view a.now) ty) state).faults) }
{
    let to = place_at(program, sizes, a, &state, mode, faults)?;
    let bytes = bytes_of(program, ty);
    let leaves = leaves_of(program, ty)?;
    let next = cleared(mode, sizes, bytes, &leaves, &to, state, faults)?;
    Ok(next)
}

/// A place of a type becomes what another one is, leaf by leaf where it can.
pub(crate) fn copy_aggregate<N: Num>(
    program: &CoreProgram,
    sizes: &[u32],
    mode: Mode,
    to: &Place,
    from: &Place,
    ty: u32,
    state: State<N>,
    faults: &mut Vec<Fault>,
) -> Result<Option<State<N>>, Memory>
    requires sizes { sizes.now ≡ spec.sizes N.ops (program_view program.now) }
    requires model { state.model ≡ (program_view program.now).types.model }
    requires to { IsPlace (program_view program.now) (place_view to.now) }
    requires from { IsPlace (program_view program.now) (place_view from.now) }
    requires there { ty < length (program_view program.now).types.types }
    ensures next { IfOk result (λ r. r ≡ (spec.simple_step N.ops (program_view program.now) mode None
        (core.copy_aggregate (place_view to.now) (place_view from.now) ty) state).next) }
    ensures faults { OnOk result (faults.new.items
        ≡ faults.old.items ++ (spec.simple_step N.ops (program_view program.now)
        mode None (core.copy_aggregate (place_view to.now) (place_view from.now) ty) state).faults) }
{
    let target = place_at(program, sizes, to, &state, mode, faults)?;
    let source = place_at(program, sizes, from, &state, mode, faults)?;
    let bytes = bytes_of(program, ty);
    let leaves = leaves_of(program, ty)?;
    let parts = Some(leaves.as_slice());
    let next = copy(mode, sizes, bytes, parts, &target, &source, state, faults)?;
    Ok(next)
}
