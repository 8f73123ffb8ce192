//! Places that are cleared.

ghost use Rattle.std.specs.Prelude.{◌≡◌, ◌+◌, ◌<◌, ◌≤◌, ◌^◌, ℕ, IfOk, OnOk, if◌then◌else◌, length, nat_eq};
ghost use Rattle.std.specs.Prelude.{slice_get, true};
ghost use Rattle.ep_int.specs.Memory.{replaced, undefined, Memory as Bytes};
ghost use Rattle.ep_bytes.specs.StoreView.{memory_in};
ghost use Rattle.ep_core.specs.Exec.{bytes_in as bytes_of_type, cleared, model, remembers};
ghost use Rattle.ep_layout.specs.Layout.{AreLeavesFrom};
ghost use Rattle.ep_machine.specs.Settings.{program_in, size_on};
ghost use Rattle.ep_machine.specs.Machines.{state_in, ArePartsOf, Changes, Runs};
ghost use Rattle.ep_simple_steps.specs.Zeros.{IsSolid, run_zeroed, zeros_in};

use ep_int::{Memory, size};
use ep_layout::{Leaf, Ty, Types};
use ep_machine::{Fault, Machine, Setting, bytes_in, check};

// Bytes of a place, from one offset on and before another.
#[derive(Clone, Copy)]
struct Run {
    from: u32,
    to: u32,
}

// The bytes of a run become 0.
fn zero_run(on: &Setting, machine: &mut Machine, block: u32, here: u32, run: Run)
    requires runs { Runs on.now machine.old }
    requires there { block < length (program_in on.now).blocks }
    requires ordered { run.from ≤ run.to }
    requires inside { here + run.to ≤ size_on on.now block }
    requires small { here + run.to < 2 ^ 32 }
    ensures runs { Runs on.now machine.new }
    ensures zeros { state_in machine.new ≡ remembers
        (run_zeroed (model on.now.order (program_in on.now)) (memory_in machine.old.store) block here run.from run.to)
        (state_in machine.old) }
{
    if run.from >= run.to {
        return;
    }
    let _filled = machine.fill(on, block, here + run.from, run.to - run.from, 0);
}

// Where the run of what begins at an offset begins: it goes on with the run that waits, if it touches that, and else
// that run becomes 0.
fn begun_at(
    on: &Setting,
    machine: &mut Machine,
    block: u32,
    here: u32,
    run: Run,
    offset: u32,
) -> u32
    requires runs { Runs on.now machine.old }
    requires there { block < length (program_in on.now).blocks }
    requires ordered { run.from ≤ run.to }
    requires inside { here + run.to ≤ size_on on.now block }
    requires small { here + run.to < 2 ^ 32 }
    ensures runs { Runs on.now machine.new }
    ensures from { result ≡ (if nat_eq offset run.to then run.from else offset) }
    ensures zeros { state_in machine.new ≡ remembers (if nat_eq offset run.to then memory_in machine.old.store else
        run_zeroed (model on.now.order (program_in on.now)) (memory_in machine.old.store) block here run.from run.to)
        (state_in machine.old) }
{
    if offset == run.to {
        return run.from;
    }
    zero_run(on, machine, block, here, run);
    offset
}

// The scalars of a place that was made undefined become 0 or null, those that touch at once.
fn zero_leaves(on: &Setting, machine: &mut Machine, block: u32, here: u32, n: u32, leaves: &[Leaf])
    requires runs { Runs on.now machine.old }
    requires there { block < length (program_in on.now).blocks }
    requires inside { here + n ≤ size_on on.now block }
    requires small { here + n < 2 ^ 32 }
    requires leaves { AreLeavesFrom (model on.now.order (program_in on.now)) 0 n leaves.now }
    ensures runs { Runs on.now machine.new }
    ensures zeros { (x : Bytes) → ArePartsOf (model on.now.order (program_in on.now)) x
        → memory_in machine.old.store
        ≡ replaced (model on.now.order (program_in on.now)) x block here n (λ k. undefined)
        → state_in machine.new
        ≡ remembers (replaced (model on.now.order (program_in on.now)) x block here n (zeros_in on.now leaves.now))
        (state_in machine.old) }
{
    let mut from = 0;
    let mut to = 0;
    for leaf in leaves {
        let width = size(on.program.types.model(), leaf.what);
        from = begun_at(on, machine, block, here, Run { from, to }, leaf.offset);
        to = leaf.offset + width;
    }
    zero_run(on, machine, block, here, Run { from, to });
}

// The type of a number.
fn row(types: &Types, ty: u32) -> Option<Ty>
    ensures { result ≡ slice_get types.now.types ty }
{
    if ty < types.type_count() {
        Some(*types.ty(ty))
    } else {
        None
    }
}

// Whether a type is a scalar, or an array whose elements are such.
fn is_solid(types: &Types, ty: u32) -> bool
    ensures { result ≡ true → IsSolid types.now ty }
{
    let mut inner = ty;
    for _depth in 0..types.type_count() {
        match row(types, inner) {
            None => return false,
            Some(Ty::Void) => return false,
            Some(Ty::Int(_)) => return true,
            Some(Ty::Ptr(_)) => return true,
            Some(Ty::Array(element, _)) => inner = element,
            Some(Ty::Aggregate(_)) => return false,
        }
    }
    false
}

// The scalars of a place in its block become 0 or null, and its other bytes undefined.
fn clear_inside(
    on: &Setting,
    machine: &mut Machine,
    ty: u32,
    block: u32,
    here: u32,
) -> Result<(), Memory>
    requires runs { Runs on.now machine.old }
    requires there { block < length (program_in on.now).blocks }
    requires inside { here + bytes_of_type on.now.order (program_in on.now) ty ≤ size_on on.now block }
    requires small { here + bytes_of_type on.now.order (program_in on.now) ty < 2 ^ 32 }
    ensures runs { OnOk result (Runs on.now machine.new) }
    ensures clears { OnOk result (state_in machine.new
        ≡ remembers (cleared on.now.order (program_in on.now) ty (memory_in machine.old.store) block here)
        (state_in machine.old)) }
{
    let n = bytes_in(on, ty);
    if is_solid(&on.program.types, ty) {
        let _filled = machine.fill(on, block, here, n, 0);
        return Ok(());
    }
    let _cleared = machine.clear(on, block, here, n);
    if ty >= on.program.types.type_count() {
        return Ok(());
    }
    let leaves = on.program.types.leaves(ty)?;
    zero_leaves(on, machine, block, here, n, &leaves);
    Ok(())
}

/// Makes the scalars of a place of a type 0 or null, and its other bytes undefined.
pub(crate) fn clear_place(
    on: &Setting,
    machine: &mut Machine,
    ty: u32,
    block: u32,
    here: u32,
) -> Result<Result<(), Fault>, Memory>
    requires runs { Runs on.now machine.old }
    requires there { block < length (program_in on.now).blocks }
    ensures runs { IfOk result (λ r. Runs on.now machine.new) }
    ensures clears { IfOk result (λ r. Changes on.now (state_in machine.old) r (state_in machine.new) block here
        (bytes_of_type on.now.order (program_in on.now) ty)
        (cleared on.now.order (program_in on.now) ty (memory_in machine.old.store) block here)) }
{
    match check(on, block, here, bytes_in(on, ty)) {
        Err(k) => Ok(Err(k)),
        Ok(_) => {
            clear_inside(on, machine, ty, block, here)?;
            Ok(Ok(()))
        }
    }
}
