//! What is known of the truths of tests.

ghost use Rattle.std.specs.Prelude.{◌≡◌, IfOk, OnOk, fold};
ghost use Rattle.ep_alarms.specs.Report.{added};
ghost use Rattle.ep_core.specs.View.{expr_view};
ghost use Rattle.ep_eval_loads.specs.After.{left_of};
ghost use Rattle.ep_eval_parts.specs.Verdicts.{verdict_view};
ghost use Rattle.ep_flows.specs.View.{mode_of, ops_for, plan_of, side_of, verdict_of};
ghost use Rattle.ep_flows.specs.Typed.{IsTypedTest};
ghost use Rattle.ep_pass.specs.Pass.{alarms_at};
ghost use Rattle.ep_transfers.specs.Cells.{cell_ops};

use crate::alarms::add_faults;
use crate::running::{is_told_so, lone, pair_mode};
use ep_alarms::Alarms;
use ep_core::tree::Expr;
use ep_domain::Num;
use ep_eval::{Verdict, Wants};
use ep_eval_loads::After;
use ep_eval_programs::{test_taken_by, test_value};
use ep_flows::setting::{Machine, Running, Setting, Truths};
use ep_int::Memory;
use ep_states::State;

fn truths(verdict: Verdict) -> Truths
    ensures { verdict_of result ≡ verdict_view verdict }
{
    match verdict {
        Verdict::Stuck => Truths::Stuck,
        Verdict::Same => Truths::Same,
        Verdict::Differs => Truths::Differs,
    }
}

pub(crate) fn test<N: Num>(
    c: &Setting<'_>,
    mode: Running,
    e: &Expr,
    line: u32,
    state: &State<N>,
    alarms: &mut Alarms,
) -> Result<Truths, Memory>
    requires { IsTypedTest (plan_of c.now).program (expr_view e.now) }
    ensures faults { OnOk result (alarms.new ≡ fold added alarms.old (alarms_at line
        ((ops_for (cell_ops N.ops) (plan_of c.now)).test (mode_of mode) (expr_view e.now) state.now).faults)) }
    ensures truths { IfOk result (λ v. verdict_of v ≡ ((ops_for (cell_ops N.ops) (plan_of c.now)).test (mode_of mode)
        (expr_view e.now) state.now).verdict) }
{
    if !is_told_so(c, state) {
        return Ok(Truths::Stuck);
    }
    let mode = pair_mode(mode);
    let mut faults = Vec::new(c.alloc);
    let x = test_value(c.program, c.sizes, e, state, mode, &mut faults)?;
    add_faults(line, &faults, alarms)?;
    Ok(truths(ep_eval::verdict_of(mode, &x)))
}

pub(crate) fn assumed<N: Num>(
    c: &Setting<'_>,
    e: &Expr,
    on_left: bool,
    on_right: bool,
    state: &State<N>,
) -> Result<Option<State<N>>, Memory>
    requires { IsTypedTest (plan_of c.now).program (expr_view e.now) }
    ensures { IfOk result (λ r. r ≡ (ops_for (cell_ops N.ops) (plan_of c.now)).assume (expr_view e.now) on_left
        on_right state.now) }
{
    let left = ep_eval_taken::test_taken(e, c.sizes, state, on_left, on_right)?;
    let own = left.state(state)?;
    Ok(own)
}

fn taken_by<N: Num>(
    c: &Setting<'_>,
    machine: Machine,
    e: &Expr,
    truth: bool,
    state: &State<N>,
) -> Result<After<N>, Memory>
    requires { IsTypedTest (plan_of c.now).program (expr_view e.now) }
    ensures { IfOk result (λ r. left_of state.now r ≡ (ops_for (cell_ops N.ops) (plan_of c.now)).assume_one
        (side_of machine) (expr_view e.now) truth state.now) }
{
    let side = lone(machine);
    let mut unseen = Vec::new(c.alloc);
    if truth {
        let wants = Wants::when_true();
        let x = test_taken_by(c.program, c.sizes, e, state, side, wants, &mut unseen)?;
        return Ok(x.when_true);
    }
    let wants = Wants::when_false();
    let x = test_taken_by(c.program, c.sizes, e, state, side, wants, &mut unseen)?;
    Ok(x.when_false)
}

pub(crate) fn assumed_one<N: Num>(
    c: &Setting<'_>,
    machine: Machine,
    e: &Expr,
    truth: bool,
    state: &State<N>,
) -> Result<Option<State<N>>, Memory>
    requires { IsTypedTest (plan_of c.now).program (expr_view e.now) }
    ensures { IfOk result (λ r. r ≡ (ops_for (cell_ops N.ops) (plan_of c.now)).assume_one (side_of machine)
        (expr_view e.now) truth state.now) }
{
    let left = taken_by(c, machine, e, truth, state)?;
    let own = left.state(state)?;
    Ok(own)
}
