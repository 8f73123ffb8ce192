//! Moves that take no step.

ghost use Rattle.std.specs.Prelude.{◌≡◌, ◌+◌, ◌<◌, IfNone, IfOk, IfSome};
ghost use Rattle.ep_core.specs.View.{stmts_view};
ghost use Rattle.ep_frames.specs.Heft.{heft, heft_all, heft_now};
ghost use Rattle.ep_machine.specs.Machines.{state_in, Runs};
ghost use Rattle.ep_steps.specs.Ready.{IsOpened, IsReady};
ghost use Rattle.ep_frames.specs.Stack.{list_of, now_of, piled, ComesTo, ListFits, NowFits, PileFits};

use ep_core::tree::{Stmt, What};
use ep_frames::{Frame, Now, Way, leave, push};
use ep_int::Memory;
use ep_machine::{Machine, Setting};

// The blocks and statements of a scope; any other statement takes a step.
fn scope_of<'p>(s: &'p Stmt) -> Option<(&'p [u32], &'p [Stmt])>
    ensures { IsOpened s.now result }
{
    match &s.what {
        What::Nothing => None,
        What::Eval(_) => None,
        What::Assign(_, _, _) => None,
        What::Clear(_, _) => None,
        What::CopyAggregate(_, _, _) => None,
        What::CopyBytes(_, _, _) => None,
        What::Fill(_, _, _) => None,
        What::Call(_, _, _) => None,
        What::Input(_, _) => None,
        What::Output(_, _) => None,
        What::ReadBytes(_, _) => None,
        What::WriteBytes(_, _) => None,
        What::If(_, _, _) => None,
        What::Loop(_, _, _, _) => None,
        What::Break => None,
        What::Continue => None,
        What::Return(_) => None,
        What::ByOrder(_, _, _) => None,
        What::Scope(blocks, body) => Some((blocks, body)),
    }
}

// What comes first in a list.
fn open_list<'p>(
    on: &Setting<'p>,
    machine: &mut Machine,
    stack: &mut Vec<Frame<'p>>,
    here: u32,
    list: &'p [Stmt],
) -> Result<Now<'p>, Memory>
    requires runs { Runs on.now machine.old }
    requires typed { ListFits on.now here list.now }
    ensures comes { IfOk result (λ n. ComesTo on.now stack.new.items n (state_in machine.new) (λ left.
        piled on.now stack.old.items (list_of on.now here list.now left (state_in machine.old)))) }
    ensures heft { IfOk result (λ n.
        heft_now n + heft_all stack.new.items < heft (stmts_view list.now) + heft_all stack.old.items) }
    ensures runs { IfOk result (λ n. Runs on.now machine.new) }
    ensures fits { IfOk result (λ n. NowFits on.now n) }
    ensures pile { IfOk result (λ n. PileFits on.now stack.old.items → PileFits on.now stack.new.items) }
{
    if list.len() == 0 {
        return Ok(Now::Leave(Way::On));
    }
    let s = &list[0];
    push(stack, &Frame::Rest(here, &list[1..]))?;
    match scope_of(s) {
        None => Ok(Now::Statement(here, s)),
        Some((blocks, body)) => {
            push(stack, &Frame::Scope(blocks))?;
            machine.kill(on, blocks);
            Ok(Now::List(here, body))
        }
    }
}

/// What comes next with no step, or nothing where a step is due or all is done.
pub(crate) fn advance<'p>(
    on: &Setting<'p>,
    machine: &mut Machine,
    stack: &mut Vec<Frame<'p>>,
    now: &Now<'p>,
) -> Result<Option<Now<'p>>, Memory>
    requires runs { Runs on.now machine.old }
    requires fits { NowFits on.now now.now }
    requires pile { PileFits on.now stack.old.items }
    ensures comes { IfOk result (λ o. IfSome o (λ n. ComesTo on.now stack.new.items n (state_in machine.new) (λ left.
        piled on.now stack.old.items (now_of on.now now.now left (state_in machine.old))))) }
    ensures heft { IfOk result (λ o.
        IfSome o (λ n. heft_now n + heft_all stack.new.items < heft_now now.now + heft_all stack.old.items)) }
    ensures runs { IfOk result (λ o. Runs on.now machine.new) }
    ensures fits { IfOk result (λ o. IfSome o (λ n. NowFits on.now n)) }
    ensures pile { IfOk result (λ o. PileFits on.now stack.new.items) }
    ensures ready { IfOk result (λ o. IfNone o (IsReady stack.old.items now.now × (stack.new.items
        ≡ stack.old.items) × (state_in machine.new ≡ state_in machine.old))) }
{
    match now {
        Now::List(here, list) => {
            let n = open_list(on, machine, stack, *here, *list)?;
            Ok(Some(n))
        }
        Now::Statement(_, _) => Ok(None),
        Now::Turn(_) => Ok(None),
        Now::Reads(_) => Ok(None),
        Now::Writes(_, _) => Ok(None),
        Now::Leave(way) => match stack.pop() {
            None => Ok(None),
            Some(frame) => {
                let n = leave(on, machine, stack, &frame, *way)?;
                Ok(Some(n))
            }
        },
        Now::Starve => Ok(None),
        Now::Faulty(_, _) => Ok(None),
    }
}
