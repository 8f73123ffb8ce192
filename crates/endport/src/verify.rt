//! The verdict on a certificate.

ghost use Rattle.std.specs.Prelude.{◌≡◌, ◌-◌, ◌<◌, ◌≤◌, ◌^◌, [], false, codes, length, IfOk, OnOk, ◌++◌};
ghost use Rattle.ep_cert.specs.Certificate.{IsCertificate, shown};
ghost use Rattle.ep_certcheck.specs.Verdict.{AreHeadsOf};
ghost use Rattle.ep_certcheck.specs.declared.verdict.Verdict.TheVariants.{Fault};
ghost use Rattle.ep_closed_laws.specs.Laws.{TypesHaveBytes};
ghost use Rattle.ep_core.specs.Exec.{is_order};
ghost use Rattle.ep_core.specs.ProgramView.{program_view};
ghost use Rattle.ep_kinds.specs.Steady.{IsClosed, IsSteady};
ghost use Rattle.ep_pass.specs.Agreement.{AgreeInTheEnd};
ghost use Rattle.ep_singles.specs.Numbers.{KeepsSingles};
ghost use Rattle.endport.specs.Certificates.{IsJudged, IsVerdictOn, IsVerification, kind_text};
ghost use Rattle.endport.specs.Certificates.{verdict_status, verdict_text};
ghost use Rattle.endport.specs.Numbers.{numbers};

use crate::jobs::{Job, refusal_job};
use crate::status::Status;
use ep_alarms::AlarmKind;
use ep_ast::Halt;
use ep_cert::{Cert, Numbers, decode};
use ep_certcheck::{Verdict, verify};
use ep_core::program::CoreProgram;
use ep_int::Memory;
use ep_single_states::single_numbers;
use ep_sized_types::sized_types;
use ep_source::read;
use itoa::Buffer;
use std::alloc::{AllocError, Global};

/// The verdict on the certificate that the bytes spell, or the refusal of its source, or that they spell none.
pub fn verify_job(alloc: Global, bytes: &[u8]) -> Result<Job, Memory>
    requires { length bytes.now ≤ 16777216 }
    ensures { IfOk result (λ j. IsVerification bytes.now j.status j.text.items) }
{
    let found = decode(alloc, bytes)?;
    match found {
        None => bad_job(alloc),
        Some(cert) => judged(alloc, cert),
    }
}

fn bad_job(alloc: Global) -> Result<Job, Memory>
    ensures status { IfOk result (λ j. j.status ≡ Status.BadCertificate) }
    ensures text { IfOk result (λ j. j.text.items ≡ codes "bad certificate\n") }
{
    match Vec::from_slice(alloc, b"bad certificate\n") {
        Ok(text) => Ok(Job {
            status: Status::BadCertificate,
            text,
        }),
        Err(_) => Err(Memory),
    }
}

// What comes of a certificate.
fn judged(alloc: Global, cert: Cert) -> Result<Job, Memory>
    requires spelled { IsCertificate (shown cert) }
    requires few { length cert.heads.items < 2 ^ 32 }
    ensures { IfOk result (λ j. IsJudged (shown cert) j.status j.text.items) }
{
    let job = verdict_of(alloc, &cert)?;
    Ok(job)
}

fn verdict_of(alloc: Global, cert: &Cert) -> Result<Job, Memory>
    requires spelled { IsCertificate (shown cert.now) }
    requires few { length cert.now.heads.items < 2 ^ 32 }
    ensures { IfOk result (λ j. IsJudged (shown cert.now) j.status j.text.items) }
{
    match &read(alloc, &cert.source, cert.model) {
        Ok(program) => {
            sized_types();
            single_numbers();
            judged_on(alloc, program, cert)
        }
        Err(Halt::Refused(refusal)) => refusal_job(alloc, refusal),
        Err(Halt::Memory) => Err(Memory),
    }
}

// The verdict on the program.
fn judged_on(alloc: Global, program: &CoreProgram, cert: &Cert) -> Result<Job, Memory>
    requires others { is_order cert.now.orders.0 cert.now.orders.1 ≡ false }
    requires heads { AreHeadsOf cert.now.orders (program_view program.now).types.model cert.now.heads.items }
    requires few { length cert.now.heads.items < 2 ^ 32 }
    ensures verdict { IfOk result (λ j. IsVerdictOn (shown cert.now) (program_view program.now) j.status j.text.items) }
    ensures portable { IfOk result (λ j. j.status ≡ Status.Done
        → AgreeInTheEnd (program_view program.now) cert.now.orders.0 cert.now.orders.1) }
    ensures closed { IfOk result (λ j. KeepsSingles numbers → TypesHaveBytes (program_view program.now).types
        → cert.now.heads.items ≡ [] → 1 ≤ cert.now.unroll
        → IsClosed (program_view program.now) cert.now.orders.0 cert.now.orders.1 (cert.now.unroll - 1)
        → IsSteady (program_view program.now) cert.now.orders.0 cert.now.orders.1 → j.status ≡ Status.Done) }
{
    let verdict = verify::<Numbers>(alloc, program, cert.orders, cert.unroll, &cert.heads)?;
    match text_of(alloc, verdict) {
        Ok(text) => Ok(Job {
            status: status_of(verdict),
            text,
        }),
        Err(_) => Err(Memory),
    }
}

fn status_of(verdict: Verdict) -> Status
    ensures { result ≡ verdict_status verdict }
{
    match verdict {
        Verdict::Yes => Status::Done,
        Verdict::Fault(_, _) => Status::NotVerified,
        Verdict::Outside(_, _) => Status::NotVerified,
        Verdict::Missing(_) => Status::NotVerified,
        Verdict::Spare(_) => Status::NotVerified,
    }
}

fn text_of(alloc: Global, verdict: Verdict) -> Result<Vec<u8>, AllocError>
    ensures { IfOk result (λ v. v.items ≡ verdict_text verdict) }
{
    let mut text = Vec::new(alloc);
    push_verdict(&mut text, verdict)?;
    Ok(text)
}

fn push_verdict(text: &mut Vec<u8>, verdict: Verdict) -> Result<(), AllocError>
    ensures { OnOk result (text.new.items ≡ text.old.items ++ verdict_text verdict) }
{
    let mut number = Buffer::new();
    match verdict {
        Verdict::Yes => text.extend_from_slice(b"verified\n"),
        Verdict::Fault(line, kind) => push_fault(text, line, kind),
        Verdict::Outside(head, _) => {
            text.extend_from_slice(b"not verified: outside ")?;
            text.extend_from_slice(number.format(head).as_bytes())?;
            text.extend_from_slice(b"\n")
        }
        Verdict::Missing(line) => {
            text.extend_from_slice(b"not verified: missing ")?;
            text.extend_from_slice(number.format(line).as_bytes())?;
            text.extend_from_slice(b"\n")
        }
        Verdict::Spare(_) => text.extend_from_slice(b"not verified: spare\n"),
    }
}

fn push_fault(text: &mut Vec<u8>, line: u32, kind: AlarmKind) -> Result<(), AllocError>
    ensures { OnOk result (text.new.items ≡ text.old.items ++ verdict_text (Fault line kind)) }
{
    let mut number = Buffer::new();
    text.extend_from_slice(b"not verified: fault ")?;
    text.extend_from_slice(number.format(line).as_bytes())?;
    push_kind(text, kind)
}

fn push_kind(text: &mut Vec<u8>, kind: AlarmKind) -> Result<(), AllocError>
    ensures { OnOk result (text.new.items ≡ text.old.items ++ kind_text kind) }
{
    text.extend_from_slice(b" ")?;
    text.extend_from_slice(kind.name().as_bytes())?;
    text.extend_from_slice(b"\n")
}
