//! Calls and their results.

ghost use Rattle.std.specs.Prelude.{◌≡◌, ℕ, suc, IfOk, IfSome, Some, map, option_to_list};
ghost use Rattle.std.specs.List.{AllByRecursion};
ghost use Rattle.std.specs.Option.{option_map};
ghost use Rattle.ep_bytes.specs.StoreView.{memory_in};
ghost use Rattle.ep_bytes.specs.View.{value_in};
ghost use Rattle.ep_core.specs.Exec.{State, Outcome, bound, call_of, converted, first_of, put_dest, put_to, received};
ghost use Rattle.ep_core.specs.Exec.{values, without};
ghost use Rattle.ep_core.specs.Program.{call};
ghost use Rattle.ep_core.specs.Typed.{CallOperandsFit, Lies, ReceivedFits, ValueFits};
ghost use Rattle.ep_core.specs.View.{dest_view, expr_view, function_view, place_view};
ghost use Rattle.ep_machine.specs.Settings.{program_in, ExprFits};
ghost use Rattle.ep_frames.specs.Heft.{heft_now};
ghost use Rattle.ep_frames.specs.Arguments.{values_by, AreBound};
ghost use Rattle.ep_machine.specs.Machines.{done, state_in, Runs};
ghost use Rattle.ep_frames.specs.Stack.{list_of, now_of, one_of, piled, ComesTo, InEach, ListFits, NowFits, OneFits};
ghost use Rattle.ep_frames.specs.Stack.{PileFits};

use crate::frames::{Frame, Now, Way, push};
use crate::leaving::left_by;
use ep_bytes::Datum;
use ep_core::program::Function;
use ep_core::tree::{Dest, Expr};
use ep_int::{Memory, Scalar, wrap};
use ep_machine::{Fault, Machine, Setting};
use std::alloc::Global;

// A value as the scalar that it goes to: a number is converted.
fn converted(what: Scalar, v: Datum) -> Datum
    ensures { value_in result ≡ converted what (value_in v) }
{
    match what {
        Scalar::Int(t) => match v {
            Datum::Int(n) => Datum::Int(wrap(t, n)),
            Datum::Null => Datum::Null,
            Datum::Pointer(b, q) => Datum::Pointer(b, q),
        },
        Scalar::Pointer => v,
    }
}

/// Stores a value through an address.
pub fn put_to(
    on: &Setting,
    machine: &mut Machine,
    what: Scalar,
    at: Datum,
    v: Datum,
) -> Result<(), Fault>
    requires runs { Runs on.now machine.old }
    requires fits { ValueFits (program_in on.now) what (value_in v) }
    ensures runs { Runs on.now machine.new }
    ensures puts { (l : ℕ) (go : State → Outcome) → put_to on.now.order (program_in on.now) what (value_in at)
        (value_in v) l (state_in machine.old) go ≡ done result l (state_in machine.new) (go (state_in machine.new)) }
{
    match at {
        Datum::Int(_) => Err(Fault::NullPointer),
        Datum::Null => Err(Fault::NullPointer),
        Datum::Pointer(b, q) => machine.put(on, what, b, q, v),
    }
}

// What comes goes to its place.
fn deliver<'p>(on: &Setting<'p>, machine: &mut Machine, dest: &Dest, v: Datum, line: u32) -> Now<'p>
    requires runs { Runs on.now machine.old }
    requires typed { Lies on.now.order (program_in on.now) (memory_in machine.old.store) (place_view dest.now.place) }
    requires fits { ValueFits (program_in on.now) dest.now.what (converted dest.now.what (value_in v)) }
    ensures comes { (left : ℕ) → now_of on.now result left (state_in machine.new) ≡ put_dest on.now.order
        (program_in on.now) (Some (dest_view dest.now)) (value_in v) line left (state_in machine.old) }
    ensures heft { heft_now result ≡ 0 }
    ensures runs { Runs on.now machine.new }
    ensures fits { NowFits on.now result }
{
    match machine.address(on, &dest.place) {
        Err(k) => Now::Faulty(line, k),
        Ok(at) => {
            let put = put_to(on, machine, dest.what, at, converted(dest.what, v));
            left_by(put, Way::On, line)
        }
    }
}

/// What comes goes to its place, if it has one.
pub fn put_dest<'p>(
    on: &Setting<'p>,
    machine: &mut Machine,
    dest: &Option<Dest>,
    v: Datum,
    line: u32,
) -> Now<'p>
    requires runs { Runs on.now machine.old }
    requires typed { IfSome dest.now (λ d.
        Lies on.now.order (program_in on.now) (memory_in machine.old.store) (place_view d.place)) }
    requires fits { IfSome dest.now (λ d. ValueFits (program_in on.now) d.what (converted d.what (value_in v))) }
    ensures comes { (left : ℕ) → now_of on.now result left (state_in machine.new) ≡ put_dest on.now.order
        (program_in on.now) (option_map dest_view dest.now) (value_in v) line left (state_in machine.old) }
    ensures runs { Runs on.now machine.new }
    ensures fits { NowFits on.now result }
{
    match dest {
        None => Now::Leave(Way::On),
        Some(d) => deliver(on, machine, d, v, line),
    }
}

/// The result of a call goes to its place, if it has one.
pub(crate) fn receive<'p>(
    on: &Setting<'p>,
    machine: &mut Machine,
    given: Option<(u32, Scalar)>,
    dest: &Option<Dest>,
    line: u32,
) -> Now<'p>
    requires runs { Runs on.now machine.old }
    requires typed { ReceivedFits on.now.order (program_in on.now) (memory_in machine.old.store) given
        (option_map dest_view dest.now) }
    ensures comes { (left : ℕ) → now_of on.now result left (state_in machine.new) ≡ received on.now.order
        (program_in on.now) given (option_map dest_view dest.now) line left (state_in machine.old) }
    ensures heft { heft_now result ≡ 0 }
    ensures runs { Runs on.now machine.new }
    ensures fits { NowFits on.now result }
{
    match dest {
        None => Now::Leave(Way::On),
        Some(d) => match given {
            None => Now::Faulty(line, Fault::PointerPart),
            Some(r) => match machine.load(on, r.1, r.0, 0) {
                Err(k) => Now::Faulty(line, k),
                Ok(v) => deliver(on, machine, d, v, line),
            },
        },
    }
}

// The values of arguments, from left to right.
fn values(
    alloc: Global,
    on: &Setting,
    machine: &Machine,
    arguments: &[Expr],
) -> Result<Result<Vec<Datum>, Fault>, Memory>
    requires runs { Runs on.now machine.now }
    requires typed { AllByRecursion (λ e. ExprFits on.now (memory_in machine.now.store) (expr_view e)) arguments.now }
    ensures { IfOk result (λ r. values_by r
        ≡ values on.now.order (program_in on.now) (map expr_view arguments.now) (memory_in machine.now.store)) }
{
    let mut all = Vec::with_capacity(alloc, arguments.len()).map_err(|_| Memory)?;
    for e in arguments {
        match machine.value(on, e) {
            Err(k) => return Ok(Err(k)),
            Ok(v) => all.push(v).map_err(|_| Memory)?,
        }
    }
    Ok(Ok(all))
}

// Arguments go to their parameters.
fn bind(
    on: &Setting,
    machine: &mut Machine,
    parameters: &[(u32, Scalar)],
    arguments: &[Datum],
) -> Result<(), Fault>
    requires runs { Runs on.now machine.old }
    requires fits { AreBound (program_in on.now) parameters.now arguments.now }
    ensures runs { Runs on.now machine.new }
    ensures binds { (l : ℕ) (go : State → Outcome) → bound on.now.order (program_in on.now) parameters.now
        (map value_in arguments.now) l (state_in machine.old) go
        ≡ done result l (state_in machine.new) (go (state_in machine.new)) }
{
    for i in 0..parameters.len() {
        if arguments.len() <= i {
            return Ok(());
        }
        let to = parameters[i];
        match machine.put(on, to.1, to.0, 0, arguments[i]) {
            Err(k) => return Err(k),
            Ok(_) => {}
        }
    }
    Ok(())
}

// The block of a function's result becomes undefined.
fn forget_result(on: &Setting, machine: &mut Machine, given: Option<(u32, Scalar)>)
    requires { Runs on.now machine.old }
    ensures runs { Runs on.now machine.new }
    ensures forgets { state_in machine.new ≡ without (first_of (option_to_list given)) (state_in machine.old) }
{
    match given {
        None => {}
        Some(r) => machine.kill_one(on, r.0),
    }
}

/// A call begins, of a function of this number.
pub(crate) fn enter<'p>(
    alloc: Global,
    on: &Setting<'p>,
    machine: &mut Machine,
    stack: &mut Vec<Frame<'p>>,
    number: u32,
    f: &'p Function,
    arguments: &[Expr],
    dest: &'p Option<Dest>,
    line: u32,
) -> Result<Now<'p>, Memory>
    requires runs { Runs on.now machine.old }
    requires typed { InEach on.now (λ m. CallOperandsFit on.now.order (program_in on.now) m
        (Some (function_view f.now)) (map expr_view arguments.now) (option_map dest_view dest.now)) }
    requires body { ListFits on.now number f.now.body.items }
    ensures comes { IfOk result (λ n. ComesTo on.now stack.new.items n (state_in machine.new)
        (λ left. piled on.now stack.old.items (call_of on.now.order (program_in on.now) (Some (function_view f.now))
        (list_of on.now number f.now.body.items) (map expr_view arguments.now)
        (option_map dest_view dest.now) line left (state_in machine.old)))) }
    ensures runs { IfOk result (λ n. Runs on.now machine.new) }
    ensures fits { IfOk result (λ n. NowFits on.now n) }
    ensures pile { IfOk result (λ n. PileFits on.now stack.old.items → PileFits on.now stack.new.items) }
{
    forget_result(on, machine, f.result);
    match values(alloc, on, machine, arguments)? {
        Err(k) => Ok(Now::Faulty(line, k)),
        Ok(all) => {
            machine.kill_parameters(on, &f.params);
            machine.kill(on, &f.locals);
            match bind(on, machine, &f.params, &all) {
                Err(k) => Ok(Now::Faulty(line, k)),
                Ok(_) => {
                    push(stack, &Frame::Call(f, dest, line))?;
                    Ok(Now::List(number, &f.body))
                }
            }
        }
    }
}

/// A function calls another, which stands before it.
pub fn call<'p>(
    alloc: Global,
    on: &Setting<'p>,
    machine: &mut Machine,
    stack: &mut Vec<Frame<'p>>,
    here: u32,
    number: u32,
    arguments: &[Expr],
    dest: &'p Option<Dest>,
    line: u32,
) -> Result<Now<'p>, Memory>
    requires runs { Runs on.now machine.old }
    requires typed { OneFits on.now here (call number (map expr_view arguments.now) (option_map dest_view dest.now)) }
    ensures comes { IfOk result (λ n. ComesTo on.now stack.new.items n (state_in machine.new)
        (λ left. piled on.now stack.old.items (one_of on.now here (call number (map expr_view arguments.now)
        (option_map dest_view dest.now)) line (suc left) (state_in machine.old)))) }
    ensures runs { IfOk result (λ n. Runs on.now machine.new) }
    ensures fits { IfOk result (λ n. NowFits on.now n) }
    ensures pile { IfOk result (λ n. PileFits on.now stack.old.items → PileFits on.now stack.new.items) }
{
    if here <= number {
        return Ok(Now::Faulty(line, Fault::PointerPart));
    }
    match on.program.functions.get(number as usize) {
        None => Ok(Now::Faulty(line, Fault::PointerPart)),
        Some(f) => {
            let next = enter(alloc, on, machine, stack, number, f, arguments, dest, line)?;
            Ok(next)
        }
    }
}
