//! What comes when a frame is left.

ghost use Rattle.std.specs.Prelude.{◌≡◌, ◌+◌, ◌<◌, ℕ, IfOk};
ghost use Rattle.std.specs.Option.{option_map};
ghost use Rattle.ep_bytes.specs.StoreView.{memory_in};
ghost use Rattle.ep_core.specs.Exec.{State, Way as PlainWay, and_then, bytewise_rest, called, code_of_way, counted};
ghost use Rattle.ep_core.specs.Exec.{either, given, into};
ghost use Rattle.ep_core.specs.Exec.{is_true as truth, leaves, on as at_end, out_of, turned};
ghost use Rattle.ep_core.specs.Typed.{ReceivedFits};
ghost use Rattle.ep_core.specs.View.{dest_view, expr_view, function_view, stmts_view};
ghost use Rattle.ep_machine.specs.declared.setting.Setting.{Setting as Plain};
ghost use Rattle.ep_machine.specs.Settings.{program_in, value_on};
ghost use Rattle.ep_frames.specs.Heft.{heft, heft_all, heft_in, heft_now};
ghost use Rattle.ep_machine.specs.Machines.{done, state_in, Runs};
ghost use Rattle.ep_frames.specs.Stack.{again_of, framed, list_of, now_of, piled, turn_of, way_of};
ghost use Rattle.ep_frames.specs.Stack.{BytesFit, ComesTo, FrameFits, InEach, ListFits, NowFits, PileFits, RoundFits};

use crate::calls::receive;
use crate::frames::{Bytes, Frame, Now, Round, Way, push};
use ep_core::program::Function;
use ep_core::tree::{Dest, Stmt};
use ep_int::Memory;
use ep_machine::{Fault, Machine, Setting, is_true};

/// What comes after something that was done, or was a fault.
pub fn left_by<'p>(outcome: Result<(), Fault>, way: Way, line: u32) -> Now<'p>
    ensures comes { (m : Plain) (left : ℕ) (s : State) → now_of m result left s
        ≡ done outcome line s (leaves (way_of way) left s) }
    ensures heft { heft_now result ≡ 0 }
    ensures fits { (m : Plain) → NowFits m result }
{
    match outcome {
        Ok(_) => Now::Leave(way),
        Err(k) => Now::Faulty(line, k),
    }
}

// What comes after the test of a loop.
fn tested<'p>(on: &Setting<'p>, machine: &mut Machine, round: &Round<'p>) -> Result<Now<'p>, Memory>
    requires runs { Runs on.now machine.old }
    requires typed { RoundFits on.now round.now }
    ensures comes { IfOk result (λ n. (left : ℕ) → now_of on.now n left (state_in machine.new) ≡ given
        (value_on on.now (expr_view round.now.test.now) (memory_in machine.old.store)) round.now.line
        (state_in machine.old) (λ v.
        either (truth v) (turn_of on.now round.now) (leaves at_end) left (state_in machine.old))) }
    ensures heft { IfOk result (λ n. heft_now n ≡ 0) }
    ensures runs { IfOk result (λ n. Runs on.now machine.new) }
    ensures fits { IfOk result (λ n. NowFits on.now n) }
{
    match machine.value(on, round.test) {
        Err(k) => Ok(Now::Faulty(round.line, k)),
        Ok(v) => {
            if is_true(v) {
                machine.list(1)?;
                return Ok(Now::Turn(*round));
            }
            machine.list(0)?;
            Ok(Now::Leave(Way::On))
        }
    }
}

// The rest of a list, if what came before is left at its end.
fn leave_rest<'p>(here: u32, rest: &'p [Stmt], way: Way) -> Now<'p>
    ensures comes { (m : Plain) (left : ℕ) (s : State) → now_of m result left s
        ≡ and_then (leaves (way_of way) left s) (list_of m here rest.now) }
    ensures heft { heft_now result < 1 + heft (stmts_view rest.now) }
    ensures fits { (m : Plain) → ListFits m here rest.now → NowFits m result }
{
    match way {
        Way::On => Now::List(here, rest),
        Way::Broken => Now::Leave(Way::Broken),
        Way::Continued => Now::Leave(Way::Continued),
        Way::Returned => Now::Leave(Way::Returned),
    }
}

// The step part of a loop, and then its test.
fn next_part<'p>(stack: &mut Vec<Frame<'p>>, round: &Round<'p>) -> Result<Now<'p>, Memory>
    ensures comes { IfOk result (λ n. (m : Plain) (left : ℕ) (s : State) → piled m stack.new.items (now_of m n left s)
        ≡ piled m stack.old.items (and_then (list_of m round.now.here round.now.next.now left s)
        (again_of m round.now))) }
    ensures heft { IfOk result (λ n. heft_now n + heft_all stack.new.items < 3 + heft
        (stmts_view round.now.next.now) + heft_all stack.old.items) }
    ensures fits { IfOk result (λ n. (m : Plain) → RoundFits m round.now → NowFits m n ×
        (PileFits m stack.old.items → PileFits m stack.new.items)) }
{
    push(stack, &Frame::Again(*round))?;
    Ok(Now::List(round.here, round.next))
}

// What comes where the body of a loop is left.
fn leave_turn<'p>(
    stack: &mut Vec<Frame<'p>>,
    round: &Round<'p>,
    way: Way,
) -> Result<Now<'p>, Memory>
    ensures comes { IfOk result (λ n. (m : Plain) (left : ℕ) (s : State) → piled m stack.new.items (now_of m n left s)
        ≡ piled m stack.old.items (turned (leaves (way_of way) left s) (list_of m round.now.here round.now.next.now)
        (again_of m round.now))) }
    ensures heft { IfOk result (λ n. heft_now n + heft_all stack.new.items < 3 + heft
        (stmts_view round.now.next.now) + heft_all stack.old.items) }
    ensures fits { IfOk result (λ n. (m : Plain) → RoundFits m round.now → NowFits m n ×
        (PileFits m stack.old.items → PileFits m stack.new.items)) }
{
    match way {
        Way::On => next_part(stack, round),
        Way::Broken => Ok(Now::Leave(Way::On)),
        Way::Continued => next_part(stack, round),
        Way::Returned => Ok(Now::Leave(Way::Returned)),
    }
}

// What comes where the step part of a loop is left.
fn leave_again<'p>(
    on: &Setting<'p>,
    machine: &mut Machine,
    round: &Round<'p>,
    way: Way,
) -> Result<Now<'p>, Memory>
    requires runs { Runs on.now machine.old }
    requires typed { RoundFits on.now round.now }
    ensures comes { IfOk result (λ n. (left : ℕ) → now_of on.now n left (state_in machine.new)
        ≡ and_then (leaves (way_of way) left (state_in machine.old)) (again_of on.now round.now)) }
    ensures heft { IfOk result (λ n. heft_now n ≡ 0) }
    ensures runs { IfOk result (λ n. Runs on.now machine.new) }
    ensures fits { IfOk result (λ n. NowFits on.now n) }
{
    match way {
        Way::On => {
            let next = tested(on, machine, round)?;
            Ok(next)
        }
        Way::Broken => Ok(Now::Leave(Way::Broken)),
        Way::Continued => Ok(Now::Leave(Way::Continued)),
        Way::Returned => Ok(Now::Leave(Way::Returned)),
    }
}

fn code_of(way: Way) -> u8
    ensures { result ≡ code_of_way (way_of way) }
{
    match way {
        Way::On => 2,
        Way::Broken => 3,
        Way::Continued => 4,
        Way::Returned => 5,
    }
}

// What comes where a body is left.
fn leave_call<'p>(
    on: &Setting<'p>,
    machine: &mut Machine,
    f: &Function,
    dest: &Option<Dest>,
    line: u32,
) -> Now<'p>
    requires runs { Runs on.now machine.old }
    requires typed { InEach on.now (λ m.
        ReceivedFits on.now.order (program_in on.now) m f.now.result (option_map dest_view dest.now)) }
    ensures comes { (w : PlainWay) (left : ℕ) → now_of on.now result left (state_in machine.new) ≡ called on.now.order
        (program_in on.now) (function_view f.now) (option_map dest_view dest.now) line
        (leaves w left (state_in machine.old)) }
    ensures heft { heft_now result ≡ 0 }
    ensures runs { Runs on.now machine.new }
    ensures fits { NowFits on.now result }
{
    machine.kill_parameters(on, &f.params);
    machine.kill(on, &f.locals);
    receive(on, machine, f.result, dest, line)
}

/// What comes where the frame is left, which was the last of the stack.
pub fn leave<'p>(
    on: &Setting<'p>,
    machine: &mut Machine,
    stack: &mut Vec<Frame<'p>>,
    frame: &Frame<'p>,
    way: Way,
) -> Result<Now<'p>, Memory>
    requires runs { Runs on.now machine.old }
    requires typed { FrameFits on.now frame.now }
    ensures comes { IfOk result (λ n. ComesTo on.now stack.new.items n (state_in machine.new) (λ left.
        piled on.now stack.old.items (framed on.now frame.now (leaves (way_of way) left (state_in machine.old))))) }
    ensures heft { IfOk result (λ n.
        heft_now n + heft_all stack.new.items < heft_in frame.now + heft_all stack.old.items) }
    ensures runs { IfOk result (λ n. Runs on.now machine.new) }
    ensures fits { IfOk result (λ n. NowFits on.now n) }
    ensures pile { IfOk result (λ n. PileFits on.now stack.old.items → PileFits on.now stack.new.items) }
{
    match frame {
        Frame::Rest(here, rest) => Ok(leave_rest(*here, *rest, way)),
        Frame::Turn(round) => leave_turn(stack, round, way),
        Frame::Again(round) => leave_again(on, machine, round, way),
        Frame::Scope(blocks) => {
            machine.kill(on, *blocks);
            Ok(Now::Leave(way))
        }
        Frame::Arm(count) => {
            machine.leave_arm(*count, code_of(way))?;
            Ok(Now::Leave(way))
        }
        Frame::Call(f, dest, line) => Ok(leave_call(on, machine, *f, *dest, *line)),
    }
}

/// Takes an input as a byte, and then so many more.
pub fn read_byte<'p>(on: &Setting<'p>, machine: &mut Machine, at: Bytes) -> Now<'p>
    requires runs { Runs on.now machine.old }
    requires fits { BytesFit on.now at }
    ensures comes { (left : ℕ) → now_of on.now result left (state_in machine.new) ≡ bytewise_rest counted
        (into on.now.order (program_in on.now) at.block) at.count at.here left (state_in machine.old) }
    ensures runs { Runs on.now machine.new }
    ensures fits { NowFits on.now result }
{
    match machine.take() {
        None => Now::Starve,
        Some(v) => {
            let _filled = machine.fill(on, at.block, at.here, 1, (v % 256) as u8);
            if at.count <= 1 {
                return Now::Leave(Way::On);
            }
            Now::Reads(Bytes {
                block: at.block,
                here: at.here + 1,
                count: at.count - 1,
            })
        }
    }
}

/// Puts a byte out, and then so many more.
pub fn write_byte<'p>(
    on: &Setting<'p>,
    machine: &mut Machine,
    at: Bytes,
    line: u32,
) -> Result<Now<'p>, Memory>
    requires runs { Runs on.now machine.old }
    requires fits { BytesFit on.now at }
    ensures comes { IfOk result (λ n. (left : ℕ) → now_of on.now n left (state_in machine.new) ≡ bytewise_rest counted
        (out_of on.now.order (program_in on.now) at.block line) at.count at.here left (state_in machine.old)) }
    ensures runs { IfOk result (λ n. Runs on.now machine.new) }
    ensures fits { IfOk result (λ n. NowFits on.now n) }
{
    match machine.put_byte(on, at.block, at.here)? {
        Err(k) => Ok(Now::Faulty(line, k)),
        Ok(_) => {
            if at.count <= 1 {
                return Ok(Now::Leave(Way::On));
            }
            let rest = Bytes {
                block: at.block,
                here: at.here + 1,
                count: at.count - 1,
            };
            Ok(Now::Writes(rest, line))
        }
    }
}
