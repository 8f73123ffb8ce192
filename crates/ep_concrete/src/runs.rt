//! Whole runs.

ghost use Rattle.std.specs.Prelude.{◌≡◌, IfOk, Some};
ghost use Rattle.ep_int.specs.Memory.{has};
ghost use Rattle.ep_bytes.specs.View.{value_in};
ghost use Rattle.ep_core.specs.Runs.{finished, main_function, result_out, run};
ghost use Rattle.ep_core.specs.ProgramView.{program_view};
ghost use Rattle.ep_core.specs.View.{function_view};
ghost use Rattle.ep_machine.specs.Settings.{program_in};
ghost use Rattle.ep_machine.specs.Machines.{state_in, Runs};
ghost use Rattle.ep_steps.specs.declared.steps.Stop.TheVariants.{AtEnd};
ghost use Rattle.ep_steps.specs.Results.{stopped};
ghost use Rattle.ep_concrete.specs.Results.{main_steps, IsRun, IsTold};

use crate::start::first_memory;
use crate::types::{Ending, RunResult};
use ep_bytes::Datum;
use ep_core::program::{CoreProgram, Function};
use ep_int::{IntType, Memory, Order};
use ep_machine::{Fault, Machine, Setting};
use ep_steps::{Stop, execute};
use std::alloc::Global;

// The result of main is put out as an int.
fn put_result(machine: &mut Machine, v: Datum, line: u32) -> Result<Ending, Memory>
    ensures { IfOk result (λ e. IsTold e machine.new
        (result_out (has (value_in v)) line (state_in machine.old))) }
{
    match v {
        Datum::Int(n) => {
            machine.put_out(IntType::I32, n)?;
            Ok(Ending::Ended)
        }
        Datum::Null => Ok(Ending::Undefined(line, Fault::PointerPart.alarm())),
        Datum::Pointer(_, _) => Ok(Ending::Undefined(line, Fault::PointerPart.alarm())),
    }
}

// How a run ends at the end of main.
fn end_main(on: &Setting, machine: &mut Machine, main: &Function) -> Result<Ending, Memory>
    requires runs { Runs on.now machine.old }
    requires main { main_function on.now.order (program_in on.now) ≡ Some (function_view main.now) }
    ensures { IfOk result (λ e. IsTold e machine.new (stopped on.now AtEnd (state_in machine.old))) }
{
    match main.result {
        None => Ok(Ending::Ended),
        Some(r) => match machine.load(on, r.1, r.0, 0) {
            Err(k) => Ok(Ending::Undefined(main.line, k.alarm())),
            Ok(v) => {
                let ending = put_result(machine, v, main.line)?;
                Ok(ending)
            }
        },
    }
}

fn ending_of(
    on: &Setting,
    machine: &mut Machine,
    main: &Function,
    stop: Stop,
) -> Result<Ending, Memory>
    requires runs { Runs on.now machine.old }
    requires main { main_function on.now.order (program_in on.now) ≡ Some (function_view main.now) }
    ensures { IfOk result (λ e. IsTold e machine.new (stopped on.now stop (state_in machine.old))) }
{
    match stop {
        Stop::Running => Ok(Ending::Running),
        Stop::AtEnd => {
            let ending = end_main(on, machine, main)?;
            Ok(ending)
        }
        Stop::NoInput => Ok(Ending::NoInput),
        Stop::Faulty(line, k) => Ok(Ending::Undefined(line, k.alarm())),
    }
}

// So many steps of main.
fn run_main<'p>(
    alloc: Global,
    on: &Setting<'p>,
    machine: &mut Machine,
    main: &'p Function,
    steps: u64,
) -> Result<Ending, Memory>
    requires runs { Runs on.now machine.old }
    requires main { main_function on.now.order (program_in on.now) ≡ Some (function_view main.now) }
    ensures { IfOk result (λ e. IsTold e machine.new
        (finished on.now.order (program_in on.now) (main_steps on.now steps (state_in machine.old)))) }
{
    let stop = execute(alloc, on, machine, on.program.main, &main.body, steps)?;
    let ending = ending_of(on, machine, main, stop)?;
    Ok(ending)
}

// The same, where there is a main. A program without one ends at once.
fn run_machine<'p>(
    alloc: Global,
    on: &Setting<'p>,
    machine: &mut Machine,
    steps: u64,
) -> Result<Ending, Memory>
    requires { Runs on.now machine.old }
    ensures { IfOk result (λ e. IsTold e machine.new
        (finished on.now.order (program_in on.now) (main_steps on.now steps (state_in machine.old)))) }
{
    match on.program.functions.get(on.program.main as usize) {
        None => Ok(Ending::Ended),
        Some(main) => {
            let ending = run_main(alloc, on, machine, main, steps)?;
            Ok(ending)
        }
    }
}

/// Runs so many steps of a program on a machine of a byte order, with these inputs.
pub fn run(
    alloc: Global,
    order: Order,
    p: &CoreProgram,
    inputs: &[u64],
    steps: u64,
) -> Result<RunResult, Memory>
    ensures { IfOk result (λ r. IsRun r (run (program_view p.now) order inputs.now steps)) }
{
    let on = Setting { order, program: p };
    let memory = first_memory(alloc, &on)?;
    let mut machine = Machine::new(alloc, memory, inputs)?;
    let ending = run_machine(alloc, &on, &mut machine, steps)?;
    let (outputs, tests, used) = machine.told();
    Ok(RunResult {
        ending,
        outputs,
        tests,
        used,
    })
}
