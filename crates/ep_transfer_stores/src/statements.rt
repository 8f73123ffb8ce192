//! Statements, one function for each kind. Of each, none is left where a running side doesn't go on, and the faults are
//! added to those that are there.

ghost use Rattle.std.specs.Prelude.{◌≡◌, ◌++◌, IfOk, OnOk, IfSome, Some, None, map};
ghost use Rattle.std.specs.Option.{option_map};
ghost use Rattle.ep_int.specs.declared.types.IntType.TheVariants.{U8};
ghost use Rattle.ep_core.specs.Program as core;
ghost use Rattle.ep_core.specs.ProgramView.{program_view};
ghost use Rattle.ep_core.specs.View.{dest_view, expr_view, place_view};
ghost use Rattle.ep_transfers.specs.Transfers as spec;
ghost use Rattle.ep_transfer_stores.specs.Typed.{IsExpr, IsPlace, IsNumber};

use crate::operands::{place_at, typed_value};
use ep_core::program::CoreProgram;
use ep_core::tree::{Dest, Expr, Place};
use ep_domain::Num;
use ep_equalities::{Fault, Mode};
use ep_eval_sides::operators::block;
use ep_int::{IntType, Memory, Scalar};
use ep_states::State;
use ep_transfer_fills::{assigned, filled_with, input_pair, read_in};
use ep_transfer_outputs::{note_alone, put_out, written_out};
use ep_transfer_places::places::has_values;

/// An expression whose value, of a scalar, goes nowhere.
pub fn evaluate<N: Num>(
    program: &CoreProgram,
    sizes: &[u32],
    mode: Mode,
    what: Scalar,
    e: &Expr,
    state: State<N>,
    faults: &mut Vec<Fault>,
) -> Result<Option<State<N>>, Memory>
    requires sizes { sizes.now ≡ spec.sizes N.ops (program_view program.now) }
    requires model { state.model ≡ (program_view program.now).types.model }
    requires typed { IsExpr (program_view program.now) what (expr_view e.now) }
    ensures next { IfOk result (λ r. r
        ≡ (spec.simple_step N.ops (program_view program.now) mode None (core.eval (expr_view e.now)) state).next) }
    ensures faults { OnOk result (faults.new.items ≡ faults.old.items
        ++ (spec.simple_step N.ops (program_view program.now) mode None (core.eval (expr_view e.now)) state).faults) }
{
    let v = typed_value(program, sizes, what, e, &state, mode, faults)?;
    if !has_values(mode, &v) {
        return Ok(None);
    }
    Ok(Some(state))
}

/// A value that is stored at a place, whose address is found first.
pub fn assign<N: Num>(
    program: &CoreProgram,
    sizes: &[u32],
    mode: Mode,
    what: Scalar,
    a: &Place,
    e: &Expr,
    state: State<N>,
    faults: &mut Vec<Fault>,
) -> Result<Option<State<N>>, Memory>
    requires sizes { sizes.now ≡ spec.sizes N.ops (program_view program.now) }
    requires model { state.model ≡ (program_view program.now).types.model }
    requires place { IsPlace (program_view program.now) (place_view a.now) }
    requires typed { IsExpr (program_view program.now) what (expr_view e.now) }
    ensures next { IfOk result (λ r. r ≡ (spec.simple_step N.ops (program_view program.now) mode None
        (core.assign what (place_view a.now) (expr_view e.now)) state).next) }
    ensures faults { OnOk result (faults.new.items
        ≡ faults.old.items ++ (spec.simple_step N.ops (program_view program.now)
        mode None (core.assign what (place_view a.now) (expr_view e.now)) state).faults) }
{
    let to = place_at(program, sizes, a, &state, mode, faults)?;
    let v = typed_value(program, sizes, what, e, &state, mode, faults)?;
    let next = assigned(mode, sizes, what, &to, v, state, faults)?;
    Ok(next)
}

/// A byte that is stored in each of so many bytes from an address on.
pub fn fill<N: Num>(
    program: &CoreProgram,
    sizes: &[u32],
    mode: Mode,
    to: &Expr,
    byte: &Expr,
    bytes: u32,
    state: State<N>,
    faults: &mut Vec<Fault>,
) -> Result<Option<State<N>>, Memory>
    requires sizes { sizes.now ≡ spec.sizes N.ops (program_view program.now) }
    requires model { state.model ≡ (program_view program.now).types.model }
    requires to { IsExpr (program_view program.now) Scalar.Pointer (expr_view to.now) }
    requires byte { IsExpr (program_view program.now) (Scalar.Int U8) (expr_view byte.now) }
    ensures next { IfOk result (λ r. r ≡ (spec.simple_step N.ops (program_view program.now) mode None
        (core.fill (expr_view to.now) (expr_view byte.now) bytes) state).next) }
    ensures faults { OnOk result (faults.new.items
        ≡ faults.old.items ++ (spec.simple_step N.ops (program_view program.now)
        mode None (core.fill (expr_view to.now) (expr_view byte.now) bytes) state).faults) }
{
    let at = typed_value(program, sizes, Scalar::Pointer, to, &state, mode, faults)?;
    let what = Scalar::Int(IntType::U8);
    let v = typed_value(program, sizes, what, byte, &state, mode, faults)?;
    let next = filled_with(mode, sizes, bytes, &at, v, state, faults)?;
    Ok(next)
}

// An input goes to a place.
fn input_to<N: Num>(
    program: &CoreProgram,
    sizes: &[u32],
    mode: Mode,
    t: IntType,
    d: &Dest,
    state: State<N>,
    faults: &mut Vec<Fault>,
) -> Result<Option<State<N>>, Memory>
    requires sizes { sizes.now ≡ spec.sizes N.ops (program_view program.now) }
    requires place { IsPlace (program_view program.now) (place_view d.now.place) }
    requires number { IsNumber d.now.what }
    ensures next { IfOk result (λ r. r
        ≡ (spec.taken_in N.ops (program_view program.now) mode t (Some (dest_view d.now)) state).next) }
    ensures faults { OnOk result (faults.new.items ≡ faults.old.items
        ++ (spec.taken_in N.ops (program_view program.now) mode t (Some (dest_view d.now)) state).faults) }
{
    let to = place_at(program, sizes, &d.place, &state, mode, faults)?;
    note_alone(mode, faults)?;
    let v = input_pair(mode, t, d.what);
    let next = assigned(mode, sizes, d.what, &to, v, state, faults)?;
    Ok(next)
}

/// The next input, as a number of a type, which may go to a number's place.
pub fn input<N: Num>(
    program: &CoreProgram,
    sizes: &[u32],
    mode: Mode,
    t: IntType,
    dest: &Option<Dest>,
    state: State<N>,
    faults: &mut Vec<Fault>,
) -> Result<Option<State<N>>, Memory>
    requires sizes { sizes.now ≡ spec.sizes N.ops (program_view program.now) }
    requires place { IfSome dest.now (λ d. IsPlace (program_view program.now) (place_view d.place)) }
    requires number { IfSome dest.now (λ d. IsNumber d.what) }
    ensures next { IfOk result (λ r. r ≡ (spec.simple_step N.ops (program_view program.now) mode None
        (core.input t (option_map dest_view dest.now)) state).next) }
    ensures faults { OnOk result (faults.new.items
        ≡ faults.old.items ++ (spec.simple_step N.ops (program_view program.now)
        mode None (core.input t (option_map dest_view dest.now)) state).faults) }
{
    match dest {
        None => {
            note_alone(mode, faults)?;
            Ok(Some(state))
        }
        Some(d) => {
            let next = input_to(program, sizes, mode, t, d, state, faults)?;
            Ok(next)
        }
    }
}

/// A number of a type is put out.
pub fn output<N: Num>(
    program: &CoreProgram,
    sizes: &[u32],
    mode: Mode,
    t: IntType,
    e: &Expr,
    state: State<N>,
    faults: &mut Vec<Fault>,
) -> Result<Option<State<N>>, Memory>
    requires sizes { sizes.now ≡ spec.sizes N.ops (program_view program.now) }
    requires model { state.model ≡ (program_view program.now).types.model }
    requires typed { IsExpr (program_view program.now) (Scalar.Int t) (expr_view e.now) }
    ensures next { IfOk result (λ r. r
        ≡ (spec.simple_step N.ops (program_view program.now) mode None (core.output t (expr_view e.now)) state).next) }
    ensures faults { OnOk result (faults.new.items ≡ faults.old.items
        ++ (spec.simple_step N.ops (program_view program.now) mode None
        (core.output t (expr_view e.now)) state).faults) }
{
    let v = typed_value(program, sizes, Scalar::Int(t), e, &state, mode, faults)?;
    let next = put_out(mode, &v, state, faults)?;
    Ok(next)
}

/// So many inputs, as bytes from an address on.
pub fn read_bytes<N: Num>(
    program: &CoreProgram,
    sizes: &[u32],
    mode: Mode,
    to: &Expr,
    bytes: u32,
    state: State<N>,
    faults: &mut Vec<Fault>,
) -> Result<Option<State<N>>, Memory>
    requires sizes { sizes.now ≡ spec.sizes N.ops (program_view program.now) }
    requires model { state.model ≡ (program_view program.now).types.model }
    requires typed { IsExpr (program_view program.now) Scalar.Pointer (expr_view to.now) }
    ensures next { IfOk result (λ r. r ≡ (spec.simple_step N.ops (program_view program.now) mode None
        (core.read_bytes (expr_view to.now) bytes) state).next) }
    ensures faults { OnOk result (faults.new.items
        ≡ faults.old.items ++ (spec.simple_step N.ops (program_view program.now)
        mode None (core.read_bytes (expr_view to.now) bytes) state).faults) }
{
    let at = typed_value(program, sizes, Scalar::Pointer, to, &state, mode, faults)?;
    note_alone(mode, faults)?;
    let next = read_in(mode, sizes, bytes, &at, state, faults)?;
    Ok(next)
}

/// So many bytes from an address on are put out.
pub fn write_bytes<N: Num>(
    program: &CoreProgram,
    sizes: &[u32],
    mode: Mode,
    from: &Expr,
    bytes: u32,
    state: State<N>,
    faults: &mut Vec<Fault>,
) -> Result<Option<State<N>>, Memory>
    requires sizes { sizes.now ≡ spec.sizes N.ops (program_view program.now) }
    requires model { state.model ≡ (program_view program.now).types.model }
    requires typed { IsExpr (program_view program.now) Scalar.Pointer (expr_view from.now) }
    ensures next { IfOk result (λ r. r ≡ (spec.simple_step N.ops (program_view program.now) mode None
        (core.write_bytes (expr_view from.now) bytes) state).next) }
    ensures faults { OnOk result (faults.new.items
        ≡ faults.old.items ++ (spec.simple_step N.ops (program_view program.now)
        mode None (core.write_bytes (expr_view from.now) bytes) state).faults) }
{
    let at = typed_value(program, sizes, Scalar::Pointer, from, &state, mode, faults)?;
    note_alone(mode, faults)?;
    let next = written_out(mode, sizes, bytes, &at, state, faults)?;
    Ok(next)
}

/// A function's value goes to the block of its result.
pub fn give_back<N: Num>(
    program: &CoreProgram,
    sizes: &[u32],
    mode: Mode,
    home: (u32, Scalar),
    e: &Expr,
    state: State<N>,
    faults: &mut Vec<Fault>,
) -> Result<Option<State<N>>, Memory>
    requires sizes { sizes.now ≡ spec.sizes N.ops (program_view program.now) }
    requires model { state.model ≡ (program_view program.now).types.model }
    requires typed { IsExpr (program_view program.now) home.1 (expr_view e.now) }
    ensures next { IfOk result (λ r. r ≡ (spec.simple_step N.ops (program_view program.now) mode (Some home)
        (core.returns (Some (expr_view e.now))) state).next) }
    ensures faults { OnOk result (faults.new.items
        ≡ faults.old.items ++ (spec.simple_step N.ops (program_view program.now)
        mode (Some home) (core.returns (Some (expr_view e.now))) state).faults) }
{
    let v = typed_value(program, sizes, home.1, e, &state, mode, faults)?;
    let to = block(state.allocator(), mode, home.0)?;
    let next = assigned(mode, sizes, home.1, &to, v, state, faults)?;
    Ok(next)
}
