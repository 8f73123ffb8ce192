//! The report on a source, or its refusal.

ghost use Rattle.std.specs.Prelude.{◌≡◌, ◌≤◌, false, true, [], length, IfOk, IsTrue};
ghost use Rattle.ep_alarms.specs.Text.{report_text_of};
ghost use Rattle.endport.specs.Check.{IsCheck, alarms_of, report_status};
ghost use Rattle.endport.specs.CheckView.{asked_for};
ghost use Rattle.endport.specs.Numbers.{numbers};
ghost use Rattle.ep_core.specs.Exec.{is_order};
ghost use Rattle.ep_core.specs.ProgramView as core;
ghost use Rattle.ep_core.specs.Runs.{Agree};
ghost use Rattle.ep_alarm_laws.specs.Laws.{ProductsKeepStrides};
ghost use Rattle.ep_iterator.specs.Reports as reports;
ghost use Rattle.ep_iterator.specs.Reports.{AllMayStand};
ghost use Rattle.ep_closed_laws.specs.Laws.{TypesHaveBytes};
ghost use Rattle.ep_kinds.specs.Steady.{IsClosed, IsSteady};
ghost use Rattle.ep_kinds.specs.Tame.{is_tame};
ghost use Rattle.ep_movers.specs.Movers.{is_mover_text};
ghost use Rattle.ep_pass.specs.Agreement.{AgreeInTheEnd};
ghost use Rattle.ep_straight_laws.specs.Laws.{has_little};
ghost use Rattle.ep_straight_laws.specs.Straight.{is_straight};
ghost use Rattle.ep_tame_laws.specs.Tamely.{IsUndefinedOnly};

use crate::jobs::{Job, refusal_job};
use crate::status::Status;
use ep_alarms::{Alarms, report_text};
use ep_ast::Halt;
use ep_bits::KnownBits;
use ep_closed_numbers::closed_number_reports;
use ep_congruence::Congruence;
use ep_core::program::CoreProgram;
use ep_domain::{Num, Pair};
use ep_even_laws::{even_bit_laws, even_laws};
use ep_int::{Memory, Model, Order};
use ep_intervals::Interval;
use ep_iterator::analyse;
use ep_mover_reports::mover_number_reports;
use ep_sized_types::sized_types;
use ep_source::read;
use ep_straight_laws::straight_numbers;
use ep_tame_reports::number_reports;
use std::alloc::Global;

/// A report for two machines.
#[derive(Clone, Copy)]
pub struct CheckAsked {
    pub model: Model,
    pub orders: (Order, Order),
    /// So many turns of a loop are gone through one by one.
    pub unroll: u32,
    /// With known bits too.
    pub known_bits: bool,
}

/// The report on a source for two machines of different byte orders, or its refusal.
pub fn check_job(alloc: Global, source: &[u8], asked: CheckAsked) -> Result<Job, Memory>
    requires fits { length source.now ≤ 1048576 }
    requires others { is_order asked.orders.0 asked.orders.1 ≡ false }
    ensures { IfOk result (λ j. IsCheck (asked_for asked) source.now j.status j.text.items) }
{
    match &read(alloc, source, asked.model) {
        Ok(program) => {
            sized_types();
            report_on(alloc, program, asked)
        }
        Err(Halt::Refused(refusal)) => refusal_job(alloc, refusal),
        Err(Halt::Memory) => Err(Memory),
    }
}

fn report_on(alloc: Global, program: &CoreProgram, asked: CheckAsked) -> Result<Job, Memory>
    requires { is_order asked.orders.0 asked.orders.1 ≡ false }
    ensures status { IfOk result (λ j. j.status
        ≡ report_status (alarms_of (asked_for asked) (core.program_view program.now))) }
    ensures text { IfOk result (λ j. j.text.items
        ≡ report_text_of (alarms_of (asked_for asked) (core.program_view program.now))) }
    ensures portable { IfOk result (λ j. j.status ≡ Status.Done
        → AgreeInTheEnd (core.program_view program.now) asked.orders.0 asked.orders.1) }
    ensures stand { IfOk result (λ _. AllMayStand true (core.program_view program.now)
        (alarms_of (asked_for asked) (core.program_view program.now))) }
    ensures tame { IfOk result (λ _. asked.known_bits ≡ false → IsTrue (is_tame (core.program_view program.now))
        → IsUndefinedOnly (alarms_of (asked_for asked) (core.program_view program.now))) }
    ensures closed { IfOk result (λ _. asked.known_bits ≡ false
        → TypesHaveBytes (core.program_view program.now).types
        → IsClosed (core.program_view program.now) asked.orders.0 asked.orders.1 asked.unroll
        → IsSteady (core.program_view program.now) asked.orders.0 asked.orders.1
        → alarms_of (asked_for asked) (core.program_view program.now) ≡ []) }
    ensures straight { IfOk result (λ _. asked.known_bits ≡ false → IsTrue (is_straight (core.program_view program.now))
        → has_little asked.orders.0 asked.orders.1 ≡ true
        → Agree (core.program_view program.now) asked.orders.0 asked.orders.1
        → alarms_of (asked_for asked) (core.program_view program.now) ≡ []) }
    ensures mover { IfOk result (λ _. asked.known_bits ≡ false
        → IsTrue (is_mover_text (core.program_view program.now) asked.orders.0 asked.orders.1)
        → Agree (core.program_view program.now) asked.orders.0 asked.orders.1
        → alarms_of (asked_for asked) (core.program_view program.now) ≡ []) }
{
    closed_alarms(program, &asked);
    straight_alarms(program, &asked);
    mover_alarms(program, &asked);
    if asked.known_bits {
        even_bit_laws::<Interval>();
        return report_by::<Pair<Pair<Interval, Congruence>, KnownBits>>(alloc, program, asked);
    }
    even_laws::<Interval>();
    tame_alarms(program, &asked);
    report_by::<Pair<Interval, Congruence>>(alloc, program, asked)
}

/// On a tame program no alarm by intervals with their congruences is of the kinds E1 to E4. Does nothing.
pub(crate) fn tame_alarms(program: &CoreProgram, asked: &CheckAsked)
    requires { is_order asked.now.orders.0 asked.now.orders.1 ≡ false }
    ensures { IsTrue (is_tame (core.program_view program.now)) → IsUndefinedOnly (reports.alarms_of numbers
        (core.program_view program.now) asked.now.orders.0 asked.now.orders.1 asked.now.unroll) }
{
    number_reports();
    let _model = program.types.model();
}

/// On a closed and steady program there is no alarm by intervals with their congruences. Does nothing.
pub(crate) fn closed_alarms(program: &CoreProgram, asked: &CheckAsked)
    requires { is_order asked.now.orders.0 asked.now.orders.1 ≡ false }
    ensures { asked.now.known_bits ≡ false → TypesHaveBytes (core.program_view program.now).types
        → IsClosed (core.program_view program.now) asked.now.orders.0 asked.now.orders.1 asked.now.unroll
        → IsSteady (core.program_view program.now) asked.now.orders.0 asked.now.orders.1
        → alarms_of (asked_for asked.now) (core.program_view program.now) ≡ [] }
{
    closed_number_reports();
}

/// On a program that only moves whole variables, on which the machines agree, one of them little-endian, there is no
/// alarm by intervals with their congruences. Does nothing.
pub(crate) fn straight_alarms(program: &CoreProgram, asked: &CheckAsked)
    requires { is_order asked.now.orders.0 asked.now.orders.1 ≡ false }
    ensures { asked.now.known_bits ≡ false → IsTrue (is_straight (core.program_view program.now))
        → has_little asked.now.orders.0 asked.now.orders.1 ≡ true
        → Agree (core.program_view program.now) asked.now.orders.0 asked.now.orders.1
        → alarms_of (asked_for asked.now) (core.program_view program.now) ≡ [] }
{
    straight_numbers();
}

/// On a byte mover on which the machines agree there is no alarm by intervals with their congruences. Does nothing.
pub(crate) fn mover_alarms(program: &CoreProgram, asked: &CheckAsked)
    requires { is_order asked.now.orders.0 asked.now.orders.1 ≡ false }
    ensures { asked.now.known_bits ≡ false
        → IsTrue (is_mover_text (core.program_view program.now) asked.now.orders.0 asked.now.orders.1)
        → Agree (core.program_view program.now) asked.now.orders.0 asked.now.orders.1
        → alarms_of (asked_for asked.now) (core.program_view program.now) ≡ [] }
{
    mover_number_reports();
}

// The report over a domain of numbers that keep strides.
fn report_by<N: Num>(alloc: Global, program: &CoreProgram, asked: CheckAsked) -> Result<Job, Memory>
    requires others { is_order asked.orders.0 asked.orders.1 ≡ false }
    requires strides { N.ops.keeps_strides ≡ true }
    requires products { ProductsKeepStrides N.ops }
    ensures status { IfOk result (λ j. j.status ≡ report_status
        (reports.alarms_of N.ops (core.program_view program.now) asked.orders.0 asked.orders.1 asked.unroll)) }
    ensures text { IfOk result (λ j. j.text.items ≡ report_text_of
        (reports.alarms_of N.ops (core.program_view program.now) asked.orders.0 asked.orders.1 asked.unroll)) }
    ensures portable { IfOk result (λ j. j.status ≡ Status.Done
        → AgreeInTheEnd (core.program_view program.now) asked.orders.0 asked.orders.1) }
    ensures stand { IfOk result (λ _. AllMayStand true (core.program_view program.now)
        (reports.alarms_of N.ops (core.program_view program.now) asked.orders.0 asked.orders.1 asked.unroll)) }
{
    let mut turns = 0u64;
    let report = analyse::<N>(
        alloc,
        program,
        asked.orders,
        asked.unroll,
        false,
        &mut turns,
    )?;
    let Ok(text) = report_text(alloc, &report.alarms) else {
        return Err(Memory);
    };
    Ok(Job {
        status: status_of(&report.alarms),
        text,
    })
}

fn status_of(alarms: &Alarms) -> Status
    ensures { result ≡ report_status alarms.now }
{
    match alarms.list() {
        [] => Status::Done,
        _ => Status::Alarms,
    }
}
