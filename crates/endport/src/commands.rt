//! What commands come to on the bytes of their files.

ghost use Rattle.std.specs.Prelude.{◌≡◌, ◌≤◌, IfErr, IfOk, length};
ghost use Rattle.ep_words.specs.View as words_seen;
ghost use Rattle.ep_words.specs.Words.{IsWithinRules};
ghost use Rattle.endport.specs.Certificates.{IsVerification};
ghost use Rattle.endport.specs.Jobs.{IsLayout};
ghost use Rattle.endport.specs.Sample.{IsSample};
ghost use Rattle.endport.specs.Top.{IsJob, most_of};

use crate::jobs::{Job, RunAsked, layout_job, run_job};
use crate::prove::{ProveAsked, prove_job};
use crate::report::{CheckAsked, check_job};
use crate::sample::sample_job;
use crate::status::Status;
use crate::verify::verify_job;
use ep_int::{Memory, Model};
use ep_sample::Sample;
use ep_words::{CheckWords, Command, ProveWords, RunWords, SampleWords, input_numbers};
use std::alloc::Global;

/// What a command comes to on the bytes of its file.
pub(crate) fn done(alloc: Global, command: &Command, bytes: &[u8]) -> Result<Job, Status>
    requires fits { length bytes.now ≤ most_of (words_seen.command command.now) }
    requires within { IsWithinRules (words_seen.command command.now) }
    ensures ok { IfOk result (λ j. IsJob (words_seen.command command.now) bytes.now j.status j.text.items) }
    ensures memory { IfErr result (λ s. s ≡ Status.Memory) }
{
    match command {
        Command::Check(check) => report_on(alloc, bytes, check),
        Command::Layout(model, _) => layouts_of(alloc, bytes, *model),
        Command::Run(run) => run_of(alloc, bytes, run),
        Command::Sample(sample) => sample_of(alloc, sample),
        Command::Prove(prove) => proof_on(alloc, bytes, prove),
        Command::Verify(_) => verdict_on(alloc, bytes),
    }
}

fn report_on(alloc: Global, bytes: &[u8], check: &CheckWords) -> Result<Job, Status>
    requires fits { length bytes.now ≤ 1048576 }
    requires others { IsWithinRules (words_seen.checking check.now) }
    ensures ok { IfOk result (λ j. IsJob (words_seen.checking check.now) bytes.now j.status j.text.items) }
    ensures memory { IfErr result (λ s. s ≡ Status.Memory) }
{
    let asked = CheckAsked {
        model: check.model,
        orders: check.orders,
        unroll: check.unroll,
        known_bits: check.known_bits,
    };
    match check_job(alloc, bytes, asked) {
        Ok(job) => Ok(job),
        Err(Memory) => Err(Status::Memory),
    }
}

fn layouts_of(alloc: Global, bytes: &[u8], model: Model) -> Result<Job, Status>
    requires { length bytes.now ≤ 1048576 }
    ensures ok { IfOk result (λ j. IsLayout model bytes.now j.status j.text.items) }
    ensures memory { IfErr result (λ s. s ≡ Status.Memory) }
{
    match layout_job(alloc, bytes, model) {
        Ok(job) => Ok(job),
        Err(Memory) => Err(Status::Memory),
    }
}

fn run_of(alloc: Global, bytes: &[u8], run: &RunWords) -> Result<Job, Status>
    requires { length bytes.now ≤ 1048576 }
    ensures ok { IfOk result (λ j. IsJob (words_seen.running run.now) bytes.now j.status j.text.items) }
    ensures memory { IfErr result (λ s. s ≡ Status.Memory) }
{
    let Ok(inputs) = input_numbers(alloc, run.inputs) else {
        return Err(Status::Memory);
    };
    let asked = RunAsked {
        model: run.model,
        order: run.order,
        steps: run.steps,
    };
    match run_job(alloc, bytes, asked, &inputs) {
        Ok(job) => Ok(job),
        Err(Memory) => Err(Status::Memory),
    }
}

fn sample_of(alloc: Global, words: &SampleWords) -> Result<Job, Status>
    requires { words.now.fields ≤ 5000 }
    ensures ok { IfOk result (λ j. IsSample words.now.start words.now.fields j.status j.text.items) }
    ensures memory { IfErr result (λ s. s ≡ Status.Memory) }
{
    let sample = Sample {
        start: words.start,
        fields: words.fields,
    };
    match sample_job(alloc, sample) {
        Ok(job) => Ok(job),
        Err(Memory) => Err(Status::Memory),
    }
}

fn proof_on(alloc: Global, bytes: &[u8], prove: &ProveWords) -> Result<Job, Status>
    requires fits { length bytes.now ≤ 1048576 }
    requires others { IsWithinRules (words_seen.proving prove.now) }
    ensures ok { IfOk result (λ j. IsJob (words_seen.proving prove.now) bytes.now j.status j.text.items) }
    ensures memory { IfErr result (λ s. s ≡ Status.Memory) }
{
    let asked = ProveAsked {
        model: prove.model,
        orders: prove.orders,
        unroll: prove.unroll,
    };
    match prove_job(alloc, bytes, asked) {
        Ok(job) => Ok(job),
        Err(Memory) => Err(Status::Memory),
    }
}

fn verdict_on(alloc: Global, bytes: &[u8]) -> Result<Job, Status>
    requires { length bytes.now ≤ 16777216 }
    ensures ok { IfOk result (λ j. IsVerification bytes.now j.status j.text.items) }
    ensures memory { IfErr result (λ s. s ≡ Status.Memory) }
{
    match verify_job(alloc, bytes) {
        Ok(job) => Ok(job),
        Err(Memory) => Err(Status::Memory),
    }
}
