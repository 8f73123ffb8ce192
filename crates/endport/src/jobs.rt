//! The texts of layouts and runs.

ghost use Rattle.std.specs.Prelude.{◌≡◌, ◌≤◌, length, IfOk};
ghost use Rattle.ep_ast.specs.Refusal.{refusal_line};
ghost use Rattle.ep_layout.specs.Text.{layout_text_of};
ghost use Rattle.ep_core.specs.Runs as runs;
ghost use Rattle.ep_core.specs.Runs.{run};
ghost use Rattle.ep_core.specs.ProgramView.{program_view};
ghost use Rattle.ep_concrete.specs.Results.{ending_of};
ghost use Rattle.ep_concrete.specs.Text.{run_text_of};
ghost use Rattle.endport.specs.Jobs.{IsLayout, IsRun, status_of};
ghost use Rattle.endport.specs.View.{asked_for};

use crate::status::Status;
use ep_ast::{Halt, Refusal, refusal_text};
use ep_concrete::{Ending, run, run_text};
use ep_core::program::CoreProgram;
use ep_int::{Memory, Model, Order};
use ep_source::read;
use std::alloc::Global;

/// A status, and the whole text.
#[derive(Drop)]
pub struct Job {
    pub status: Status,
    pub text: Vec<u8>,
}

/// A run on one machine.
#[derive(Clone, Copy)]
pub struct RunAsked {
    pub model: Model,
    pub order: Order,
    /// At most.
    pub steps: u64,
}

/// The line of a refusal.
pub fn refusal_job(alloc: Global, refusal: &Refusal) -> Result<Job, Memory>
    ensures status { IfOk result (λ j. j.status ≡ Status.Refused) }
    ensures text { IfOk result (λ j. j.text.items ≡ refusal_line refusal.now) }
{
    let text = refusal_text(alloc, refusal)?;
    Ok(Job {
        status: Status::Refused,
        text,
    })
}

fn layouts(program: &CoreProgram) -> Result<Job, Memory>
    ensures status { IfOk result (λ j. j.status ≡ Status.Done) }
    ensures text { IfOk result (λ j. j.text.items ≡ layout_text_of program.now.types) }
{
    let text = program.types.layout_text()?;
    Ok(Job {
        status: Status::Done,
        text,
    })
}

/// The layouts of the types of a source.
pub fn layout_job(alloc: Global, source: &[u8], model: Model) -> Result<Job, Memory>
    requires { length source.now ≤ 1048576 }
    ensures { IfOk result (λ j. IsLayout model source.now j.status j.text.items) }
{
    match &read(alloc, source, model) {
        Ok(program) => layouts(program),
        Err(Halt::Refused(refusal)) => refusal_job(alloc, refusal),
        Err(Halt::Memory) => Err(Memory),
    }
}

fn status_of(ending: Ending) -> Status
    ensures { (e : runs.Ending) → ending ≡ ending_of e → result ≡ status_of e }
{
    match ending {
        Ending::Running => Status::StepsUsedUp,
        Ending::Ended => Status::Done,
        Ending::NoInput => Status::InputEnded,
        Ending::Undefined(_, _) => Status::Undefined,
    }
}

fn run_of(
    alloc: Global,
    program: &CoreProgram,
    asked: RunAsked,
    inputs: &[u64],
) -> Result<Job, Memory>
    ensures status { IfOk result (λ j.
        j.status ≡ status_of (run (program_view program.now) asked.order inputs.now asked.steps).ending) }
    ensures text { IfOk result (λ j.
        j.text.items ≡ run_text_of (run (program_view program.now) asked.order inputs.now asked.steps)) }
{
    let result = run(alloc, asked.order, program, inputs, asked.steps)?;
    let text = run_text(alloc, &result)?;
    Ok(Job {
        status: status_of(result.ending),
        text,
    })
}

/// The run of a source.
pub fn run_job(alloc: Global, source: &[u8], asked: RunAsked, inputs: &[u64]) -> Result<Job, Memory>
    requires { length source.now ≤ 1048576 }
    ensures { IfOk result (λ j. IsRun (asked_for asked inputs.now) source.now j.status j.text.items) }
{
    match &read(alloc, source, asked.model) {
        Ok(program) => run_of(alloc, program, asked, inputs),
        Err(Halt::Refused(refusal)) => refusal_job(alloc, refusal),
        Err(Halt::Memory) => Err(Memory),
    }
}
