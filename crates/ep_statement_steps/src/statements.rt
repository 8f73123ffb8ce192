//! Each kind of statement that takes a step.

ghost use Rattle.std.specs.Prelude.{◌≡◌, suc, true, IfOk};
ghost use Rattle.ep_core.specs.View.{what_view};
ghost use Rattle.ep_machine.specs.Machines.{state_in, Runs};
ghost use Rattle.ep_frames.specs.Stack.{one_of, piled, result_at, takes_step, ComesTo, NowFits, OneFits, PileFits};

use crate::choices::{begin_loop, choose, choose_arm};
use ep_core::tree::{Stmt, What};
use ep_frames::{Frame, Now, Round, Way, call};
use ep_int::{Memory, Scalar};
use ep_machine::{Machine, Setting};
use ep_simple_steps::{
    assign, clear, copy_aggregate, copy_bytes, eval, fill, give_back, input, output, read_bytes,
    write_bytes,
};
use std::alloc::Global;

// The block of the result of a function, with what it holds.
fn result_of(on: &Setting, here: u32) -> Option<(u32, Scalar)>
    ensures { result ≡ result_at on.now here }
{
    match on.program.functions.get(here as usize) {
        None => None,
        Some(f) => f.result,
    }
}

/// What comes when a statement begins that takes a step, which is taken.
pub fn begin<'p>(
    alloc: Global,
    on: &Setting<'p>,
    machine: &mut Machine,
    stack: &mut Vec<Frame<'p>>,
    here: u32,
    s: &'p Stmt,
) -> Result<Now<'p>, Memory>
    requires runs { Runs on.now machine.old }
    requires typed { OneFits on.now here (what_view s.now.what) }
    ensures comes { IfOk result (λ n. takes_step (what_view s.now.what) ≡ true → ComesTo on.now stack.new.items n
        (state_in machine.new) (λ left. piled on.now stack.old.items (one_of on.now here
        (what_view s.now.what) s.now.line (suc left) (state_in machine.old)))) }
    ensures runs { IfOk result (λ n. Runs on.now machine.new) }
    ensures fits { IfOk result (λ n. NowFits on.now n) }
    ensures pile { IfOk result (λ n. PileFits on.now stack.old.items → PileFits on.now stack.new.items) }
{
    match &s.what {
        What::Nothing => Ok(Now::Leave(Way::On)),
        What::Eval(e) => Ok(eval(on, machine, e, s.line)),
        What::Assign(what, a, e) => Ok(assign(on, machine, *what, a, e, s.line)),
        What::Clear(a, ty) => clear(on, machine, a, *ty, s.line),
        What::CopyAggregate(to, from, ty) => {
            Ok(copy_aggregate(on, machine, to, from, *ty, s.line))
        }
        What::CopyBytes(to, from, n) => Ok(copy_bytes(on, machine, to, from, *n, s.line)),
        What::Fill(to, byte, n) => Ok(fill(on, machine, to, byte, *n, s.line)),
        What::Call(k, arguments, dest) => {
            call(alloc, on, machine, stack, here, *k, arguments, dest, s.line)
        }
        What::Input(t, dest) => Ok(input(on, machine, *t, dest, s.line)),
        What::Output(t, e) => output(on, machine, *t, e, s.line),
        What::ReadBytes(to, n) => Ok(read_bytes(on, machine, to, *n, s.line)),
        What::WriteBytes(from, count) => write_bytes(on, machine, from, *count, s.line),
        What::If(e, a, b) => choose(on, machine, here, e, a, b, s.line),
        What::Loop(tests_first, e, a, b) => {
            let round = Round {
                here,
                line: s.line,
                test: e,
                body: a,
                next: b,
            };
            begin_loop(stack, *tests_first, &round)
        }
        What::Break => Ok(Now::Leave(Way::Broken)),
        What::Continue => Ok(Now::Leave(Way::Continued)),
        What::Return(e) => Ok(give_back(on, machine, result_of(on, here), e, s.line)),
        What::ByOrder(named, a, b) => choose_arm(on, machine, stack, here, *named, a, b),
        What::Scope(_, _) => Ok(Now::Leave(Way::On)),
    }
}
