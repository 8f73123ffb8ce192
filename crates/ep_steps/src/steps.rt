//! The loop.

ghost use Rattle.std.specs.Prelude.{◌≡◌, ℕ, suc, IfNone, IfOk, List};
ghost use Rattle.ep_core.specs.Runs.{finished};
ghost use Rattle.ep_machine.specs.declared.setting.Setting.{Setting as Plain};
ghost use Rattle.ep_machine.specs.Settings.{program_in};
ghost use Rattle.ep_machine.specs.Machines.{state_in, Runs};
ghost use Rattle.ep_frames.specs.declared.frames.Frame.{Frame};
ghost use Rattle.ep_steps.specs.Ready.{IsDue, IsReady};
ghost use Rattle.ep_steps.specs.Results.{stopped, IsAlike, Stops};
ghost use Rattle.ep_frames.specs.Stack.{list_of, now_of, piled, ComesTo, ListFits, NowFits, PileFits};

use crate::moves::advance;
use ep_core::tree::Stmt;
use ep_frames::{Frame, Now, push, read_byte, write_byte};
use ep_int::Memory;
use ep_machine::{Fault, Machine, Setting};
use ep_statement_steps::begin;
use std::alloc::Global;

/// Where statements stop after so many steps.
#[derive(Debug, Clone, Copy)]
pub enum Stop {
    /// There are no more steps.
    Running,
    AtEnd,
    /// An input is wanted, and there is none.
    NoInput,
    /// What is undefined, and the line of the statement.
    Faulty(u32, Fault),
}

// Goes on to where a step is due or all is done.
fn settle<'p>(
    on: &Setting<'p>,
    machine: &mut Machine,
    stack: &mut Vec<Frame<'p>>,
    first: &Now<'p>,
) -> Result<Now<'p>, Memory>
    requires runs { Runs on.now machine.old }
    requires fits { NowFits on.now first.now }
    requires pile { PileFits on.now stack.old.items }
    ensures comes { IfOk result (λ n. ComesTo on.now stack.new.items n (state_in machine.new) (λ left.
        piled on.now stack.old.items (now_of on.now first.now left (state_in machine.old)))) }
    ensures runs { IfOk result (λ n. Runs on.now machine.new) }
    ensures fits { IfOk result (λ n. NowFits on.now n) }
    ensures pile { IfOk result (λ n. PileFits on.now stack.new.items) }
    ensures ready { IfOk result (λ n. IsReady stack.new.items n) }
{
    let mut now = *first;
    'moves: loop {
        match advance(on, machine, stack, &now)? {
            None => return Ok(now),
            Some(next) => now = next,
        }
    }
}

// Where nothing more is to be done.
fn found_stop<'p>(now: &Now<'p>) -> Option<Stop>
    ensures stops { (m : Plain) (fs : List Frame) → IsReady fs now.now → NowFits m now.now → Stops m fs now.now result }
    ensures due { (fs : List Frame) → IsReady fs now.now → IfNone result (IsDue now.now) }
{
    match now {
        Now::List(_, _) => None,
        Now::Statement(_, _) => None,
        Now::Turn(_) => None,
        Now::Reads(_) => None,
        Now::Writes(_, _) => None,
        Now::Leave(_) => Some(Stop::AtEnd),
        Now::Starve => Some(Stop::NoInput),
        Now::Faulty(line, k) => Some(Stop::Faulty(*line, *k)),
    }
}

// Takes a step that is due.
fn take_step<'p>(
    alloc: Global,
    on: &Setting<'p>,
    machine: &mut Machine,
    stack: &mut Vec<Frame<'p>>,
    now: &Now<'p>,
) -> Result<Now<'p>, Memory>
    requires runs { Runs on.now machine.old }
    requires fits { NowFits on.now now.now }
    requires pile { PileFits on.now stack.old.items }
    ensures comes { IfOk result (λ n. IsDue now.now → ComesTo on.now stack.new.items n (state_in machine.new) (λ left.
        piled on.now stack.old.items (now_of on.now now.now (suc left) (state_in machine.old)))) }
    ensures runs { IfOk result (λ n. Runs on.now machine.new) }
    ensures fits { IfOk result (λ n. NowFits on.now n) }
    ensures pile { IfOk result (λ n. PileFits on.now stack.new.items) }
{
    match now {
        Now::List(here, list) => Ok(Now::List(*here, *list)),
        Now::Statement(here, s) => begin(alloc, on, machine, stack, *here, *s),
        Now::Turn(round) => {
            push(stack, &Frame::Turn(*round))?;
            Ok(Now::List(round.here, round.body))
        }
        Now::Reads(at) => Ok(read_byte(on, machine, *at)),
        Now::Writes(at, line) => {
            let n = write_byte(on, machine, *at, *line)?;
            Ok(n)
        }
        Now::Leave(way) => Ok(Now::Leave(*way)),
        Now::Starve => Ok(Now::Starve),
        Now::Faulty(line, k) => Ok(Now::Faulty(*line, *k)),
    }
}

// So many steps.
fn drive<'p>(
    alloc: Global,
    on: &Setting<'p>,
    machine: &mut Machine,
    stack: &mut Vec<Frame<'p>>,
    first: &Now<'p>,
    steps: u64,
) -> Result<Stop, Memory>
    requires runs { Runs on.now machine.old }
    requires fits { NowFits on.now first.now }
    requires pile { PileFits on.now stack.old.items }
    ensures stops { IfOk result (λ x. IsAlike (finished on.now.order (program_in on.now)
        (piled on.now stack.old.items (now_of on.now first.now steps (state_in machine.old))))
        (stopped on.now x (state_in machine.new))) }
    ensures runs { IfOk result (λ x. Runs on.now machine.new) }
{
    let mut now = settle(on, machine, stack, first)?;
    let mut left = steps;
    'steps: loop {
        match found_stop(&now) {
            Some(stop) => return Ok(stop),
            None => {}
        }
        if left == 0 {
            return Ok(Stop::Running);
        }
        left -= 1;
        let next = take_step(alloc, on, machine, stack, &now)?;
        now = settle(on, machine, stack, &next)?;
    }
}

/// So many steps of statements, in the function of this number. The joint tests of arms that are cut off stay.
pub fn execute<'p>(
    alloc: Global,
    on: &Setting<'p>,
    machine: &mut Machine,
    here: u32,
    list: &'p [Stmt],
    steps: u64,
) -> Result<Stop, Memory>
    requires runs { Runs on.now machine.old }
    requires typed { ListFits on.now here list.now }
    ensures stops { IfOk result (λ x. IsAlike
        (finished on.now.order (program_in on.now) (list_of on.now here list.now steps (state_in machine.old)))
        (stopped on.now x (state_in machine.new))) }
    ensures runs { IfOk result (λ x. Runs on.now machine.new) }
{
    let mut stack = Vec::new(alloc);
    let first = Now::List(here, list);
    let stop = drive(alloc, on, machine, &mut stack, &first, steps)?;
    Ok(stop)
}
