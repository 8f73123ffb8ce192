//! A certificate that a report is empty, or the report.

ghost use Rattle.std.specs.Prelude.{◌≡◌, ◌≤◌, [], false, true, length, IfOk, IsTrue};
ghost use Rattle.ep_alarms.specs.Text.{report_text_of};
ghost use Rattle.ep_cert.specs.Certificate.{CertSpells, IsCertificate, certificate_of, shown};
ghost use Rattle.ep_closed_laws.specs.Laws.{TypesHaveBytes};
ghost use Rattle.ep_core.specs.Exec.{is_order};
ghost use Rattle.ep_core.specs.ProgramView as core;
ghost use Rattle.ep_core.specs.Runs.{Agree};
ghost use Rattle.ep_iterator.specs.Reports.{AllMayStand};
ghost use Rattle.ep_kinds.specs.Steady.{IsClosed, IsSteady};
ghost use Rattle.ep_kinds.specs.Tame.{is_tame};
ghost use Rattle.ep_movers.specs.Movers.{is_mover_text};
ghost use Rattle.ep_pass.specs.Agreement.{AgreeInTheEnd};
ghost use Rattle.ep_straight_laws.specs.Laws.{has_little};
ghost use Rattle.ep_straight_laws.specs.Straight.{is_straight};
ghost use Rattle.ep_tame_laws.specs.Tamely.{IsUndefinedOnly};
ghost use Rattle.endport.specs.Certificates.{IsProof, certificate_on};
ghost use Rattle.endport.specs.Check.{alarms_of, report_status};
ghost use Rattle.endport.specs.CheckView.{proof_asked_for};

use crate::jobs::{Job, refusal_job};
use crate::report::{CheckAsked, closed_alarms, mover_alarms, straight_alarms, tame_alarms};
use crate::status::Status;
use ep_alarms::{Alarms, report_text};
use ep_ast::Halt;
use ep_cell_walks::KnownCells;
use ep_cert::{Cert, Numbers, certificate, encode};
use ep_core::program::CoreProgram;
use ep_even_laws::even_laws;
use ep_int::{Memory, Model, Order};
use ep_intervals::Interval;
use ep_iterator::{Report, analyse};
use ep_sized_types::sized_types;
use ep_source::read;
use ep_states::State;
use std::alloc::Global;

/// A certificate for two machines.
#[derive(Clone, Copy)]
pub struct ProveAsked {
    pub model: Model,
    pub orders: (Order, Order),
    /// So many turns of a loop are gone through one by one.
    pub unroll: u32,
}

/// A certificate that the report on a source for two machines of different byte orders is empty, else the report, or
/// the source's refusal.
pub fn prove_job(alloc: Global, source: &[u8], asked: ProveAsked) -> Result<Job, Memory>
    requires fits { length source.now ≤ 1048576 }
    requires others { is_order asked.orders.0 asked.orders.1 ≡ false }
    ensures { IfOk result (λ j. IsProof (proof_asked_for asked) source.now j.status j.text.items) }
{
    match &read(alloc, source, asked.model) {
        Ok(program) => {
            sized_types();
            number_reports(program, &asked);
            proof_of(alloc, program, source, asked)
        }
        Err(Halt::Refused(refusal)) => refusal_job(alloc, refusal),
        Err(Halt::Memory) => Err(Memory),
    }
}

// What reports by intervals with their congruences have of alarms, and when they have none. Does nothing.
fn number_reports(program: &CoreProgram, asked: &ProveAsked)
    requires { is_order asked.now.orders.0 asked.now.orders.1 ≡ false }
    ensures tame { IsTrue (is_tame (core.program_view program.now))
        → IsUndefinedOnly (alarms_of (proof_asked_for asked.now) (core.program_view program.now)) }
    ensures closed { TypesHaveBytes (core.program_view program.now).types
        → IsClosed (core.program_view program.now) asked.now.orders.0 asked.now.orders.1 asked.now.unroll
        → IsSteady (core.program_view program.now) asked.now.orders.0 asked.now.orders.1
        → alarms_of (proof_asked_for asked.now) (core.program_view program.now) ≡ [] }
    ensures straight { IsTrue (is_straight (core.program_view program.now))
        → has_little asked.now.orders.0 asked.now.orders.1 ≡ true
        → Agree (core.program_view program.now) asked.now.orders.0 asked.now.orders.1
        → alarms_of (proof_asked_for asked.now) (core.program_view program.now) ≡ [] }
    ensures mover { IsTrue (is_mover_text (core.program_view program.now) asked.now.orders.0 asked.now.orders.1)
        → Agree (core.program_view program.now) asked.now.orders.0 asked.now.orders.1
        → alarms_of (proof_asked_for asked.now) (core.program_view program.now) ≡ [] }
{
    let check = CheckAsked {
        model: asked.model,
        orders: asked.orders,
        unroll: asked.unroll,
        known_bits: false,
    };
    tame_alarms(program, &check);
    closed_alarms(program, &check);
    straight_alarms(program, &check);
    mover_alarms(program, &check);
}

// The certificate of a program's empty report, or its report.
fn proof_of(
    alloc: Global,
    program: &CoreProgram,
    source: &[u8],
    asked: ProveAsked,
) -> Result<Job, Memory>
    requires { is_order asked.orders.0 asked.orders.1 ≡ false }
    ensures status { IfOk result (λ j. j.status
        ≡ report_status (alarms_of (proof_asked_for asked) (core.program_view program.now))) }
    ensures report { IfOk result (λ j. j.status ≡ Status.Alarms → j.text.items
        ≡ report_text_of (alarms_of (proof_asked_for asked) (core.program_view program.now))) }
    ensures spells { IfOk result (λ j. j.status ≡ Status.Done → CertSpells j.text.items
        (certificate_on (proof_asked_for asked) (core.program_view program.now) source.now)) }
    ensures portable { IfOk result (λ j. j.status ≡ Status.Done
        → AgreeInTheEnd (core.program_view program.now) asked.orders.0 asked.orders.1) }
    ensures stand { IfOk result (λ _. AllMayStand true (core.program_view program.now)
        (alarms_of (proof_asked_for asked) (core.program_view program.now))) }
{
    even_laws::<Interval>();
    let mut turns = 0u64;
    let report = analyse::<Numbers>(alloc, program, asked.orders, asked.unroll, true, &mut turns)?;
    let job = told(alloc, report, source, asked)?;
    Ok(job)
}

// The certificate where there are no alarms, else the report.
fn told(
    alloc: Global,
    report: Report<Numbers>,
    source: &[u8],
    asked: ProveAsked,
) -> Result<Job, Memory>
    ensures status { IfOk result (λ j. j.status ≡ report_status report.alarms) }
    ensures report { IfOk result (λ j. j.status ≡ Status.Alarms → j.text.items ≡ report_text_of report.alarms) }
    ensures spells { IfOk result (λ j. j.status ≡ Status.Done → CertSpells j.text.items
        (certificate_of asked.orders asked.model asked.unroll report.heads.items source.now)) }
{
    if has_none(&report.alarms) {
        let job = certificate_job(alloc, report.heads, source, asked)?;
        return Ok(job);
    }
    let job = alarms_job(alloc, &report.alarms)?;
    Ok(job)
}

fn has_none(alarms: &Alarms) -> bool
    ensures none { result ≡ true → Status.Done ≡ report_status alarms.now }
    ensures some { result ≡ false → Status.Alarms ≡ report_status alarms.now }
{
    match alarms.list() {
        [] => true,
        _ => false,
    }
}

fn alarms_job(alloc: Global, alarms: &Alarms) -> Result<Job, Memory>
    ensures status { IfOk result (λ j. j.status ≡ Status.Alarms) }
    ensures text { IfOk result (λ j. j.text.items ≡ report_text_of alarms.now) }
{
    let text = report_text(alloc, alarms)?;
    Ok(Job {
        status: Status::Alarms,
        text,
    })
}

// The certificate of these heads. A head of 2^32 cells or more has none, and is told as want of memory.
fn certificate_job(
    alloc: Global,
    heads: Vec<KnownCells<Numbers>>,
    source: &[u8],
    asked: ProveAsked,
) -> Result<Job, Memory>
    ensures status { IfOk result (λ j. j.status ≡ Status.Done) }
    ensures spells { IfOk result (λ j. CertSpells j.text.items
        (certificate_of asked.orders asked.model asked.unroll heads.items source.now)) }
{
    let heads = states_of(alloc, heads)?;
    let source = copied(alloc, source)?;
    let cert = certified(heads, source, asked)?;
    let text = encode(alloc, &cert)?;
    Ok(Job {
        status: Status::Done,
        text,
    })
}

fn certified(heads: Vec<State<Numbers>>, source: Vec<u8>, asked: ProveAsked) -> Result<Cert, Memory>
    ensures certificate { IfOk result (λ c. IsCertificate (shown c)) }
    ensures parts { IfOk result (λ c. shown c
        ≡ certificate_of asked.orders asked.model asked.unroll heads.items source.items) }
{
    match certificate(asked.orders, asked.model, asked.unroll, heads, source)? {
        None => Err(Memory),
        Some(cert) => Ok(cert),
    }
}

fn states_of(alloc: Global, heads: Vec<KnownCells<Numbers>>) -> Result<Vec<State<Numbers>>, Memory>
    ensures { IfOk result (λ v. v.items ≡ heads.items) }
{
    let mut states = Vec::new(alloc);
    for head in heads {
        states.push(head.state).map_err(|_| Memory)?;
    }
    Ok(states)
}

fn copied(alloc: Global, bytes: &[u8]) -> Result<Vec<u8>, Memory>
    ensures { IfOk result (λ v. v.items ≡ bytes.now) }
{
    match Vec::from_slice(alloc, bytes) {
        Ok(bytes) => Ok(bytes),
        Err(_) => Err(Memory),
    }
}
