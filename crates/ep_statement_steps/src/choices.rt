//! Which of its lists a statement takes: by a test, in turns, or by the machine's byte order.

ghost use Rattle.std.specs.Prelude.{◌≡◌, ℕ, IfOk};
ghost use Rattle.ep_bytes.specs.StoreView.{memory_in};
ghost use Rattle.ep_core.specs.Exec.{State, arm_left, chosen, counted, either, first_turn, given, is_order};
ghost use Rattle.ep_core.specs.Exec.{is_true as truth};
ghost use Rattle.ep_core.specs.View.{expr_view};
ghost use Rattle.ep_machine.specs.declared.setting.Setting.{Setting as Plain};
ghost use Rattle.ep_machine.specs.Settings.{value_on, ExprFits};
ghost use Rattle.ep_machine.specs.Machines.{state_in, Runs};
ghost use Rattle.ep_frames.specs.Stack.{again_of, list_of, now_of, piled, ListFits, NowFits, PileFits, RoundFits};

use ep_core::tree::{Expr, Stmt};
use ep_frames::{Frame, Now, Round, Way, push};
use ep_int::{Memory, Order};
use ep_machine::{Machine, Setting, is_true};

/// One of two lists, by a test, which is listed.
pub(crate) fn choose<'p>(
    on: &Setting<'p>,
    machine: &mut Machine,
    here: u32,
    e: &Expr,
    a: &'p [Stmt],
    b: &'p [Stmt],
    line: u32,
) -> Result<Now<'p>, Memory>
    requires runs { Runs on.now machine.old }
    requires typed { ExprFits on.now (memory_in machine.old.store) (expr_view e.now) }
    requires yes { ListFits on.now here a.now }
    requires no { ListFits on.now here b.now }
    ensures comes { IfOk result (λ n. (left : ℕ) → now_of on.now n left (state_in machine.new) ≡ given
        (value_on on.now (expr_view e.now) (memory_in machine.old.store)) line (state_in machine.old) (λ v.
        either (truth v) (list_of on.now here a.now) (list_of on.now here b.now) left (state_in machine.old))) }
    ensures runs { IfOk result (λ n. Runs on.now machine.new) }
    ensures fits { IfOk result (λ n. NowFits on.now n) }
{
    match machine.value(on, e) {
        Err(k) => Ok(Now::Faulty(line, k)),
        Ok(v) => {
            if is_true(v) {
                machine.list(1)?;
                return Ok(Now::List(here, a));
            }
            machine.list(0)?;
            Ok(Now::List(here, b))
        }
    }
}

/// A loop begins: with its test, or with a turn.
pub(crate) fn begin_loop<'p>(
    stack: &mut Vec<Frame<'p>>,
    tests_first: bool,
    round: &Round<'p>,
) -> Result<Now<'p>, Memory>
    ensures comes { IfOk result (λ n. (m : Plain) (left : ℕ) (s : State) → piled m stack.new.items (now_of m n left s)
        ≡ piled m stack.old.items (first_turn counted tests_first (list_of m round.now.here round.now.body.now)
        (list_of m round.now.here round.now.next.now) (again_of m round.now) left s)) }
    ensures fits { IfOk result (λ n. (m : Plain) → RoundFits m round.now → NowFits m n ×
        (PileFits m stack.old.items → PileFits m stack.new.items)) }
{
    if tests_first {
        push(stack, &Frame::Again(*round))?;
        return Ok(Now::Leave(Way::On));
    }
    Ok(Now::Turn(*round))
}

fn is_same_order(a: Order, b: Order) -> bool
    ensures { result ≡ is_order a b }
{
    match a {
        Order::Little => match b {
            Order::Little => true,
            Order::Big => false,
            Order::SwappedWords => false,
        },
        Order::Big => match b {
            Order::Little => false,
            Order::Big => true,
            Order::SwappedWords => false,
        },
        Order::SwappedWords => match b {
            Order::Little => false,
            Order::Big => false,
            Order::SwappedWords => true,
        },
    }
}

/// One of two lists, by the machine's byte order.
pub(crate) fn choose_arm<'p>(
    on: &Setting<'p>,
    machine: &Machine,
    stack: &mut Vec<Frame<'p>>,
    here: u32,
    named: Order,
    a: &'p [Stmt],
    b: &'p [Stmt],
) -> Result<Now<'p>, Memory>
    requires runs { Runs on.now machine.now }
    requires yes { ListFits on.now here a.now }
    requires no { ListFits on.now here b.now }
    ensures comes { IfOk result (λ n. (left : ℕ) → piled on.now stack.new.items
        (now_of on.now n left (state_in machine.now)) ≡ piled on.now stack.old.items
        (arm_left machine.now.joint_tests (chosen (is_order on.now.order named) (list_of on.now here a.now)
        (list_of on.now here b.now) left (state_in machine.now)))) }
    ensures fits { IfOk result (λ n. NowFits on.now n) }
    ensures pile { IfOk result (λ n. PileFits on.now stack.old.items → PileFits on.now stack.new.items) }
{
    push(stack, &Frame::Arm(machine.joint_count()))?;
    if is_same_order(on.order, named) {
        return Ok(Now::List(here, a));
    }
    Ok(Now::List(here, b))
}
