//! What statements without statements in them do, and calls. A state that is told in another data model than the
//! program's goes no further.

ghost use Rattle.std.specs.Prelude.{◌≡◌, true, IfOk, OnOk, Some, fold, map, slice_get};
ghost use Rattle.std.specs.Option.{option_map};
ghost use Rattle.ep_alarms.specs.Report.{added};
ghost use Rattle.ep_core.specs.View.{dest_view, expr_view, function_view, what_view};
ghost use Rattle.ep_flows.specs.View.{is_simple, mode_of, ops_for, plan_of, simple_of};
ghost use Rattle.ep_flows.specs.Typed.{AreArguments, IsTypedSimple, TakesResult};
ghost use Rattle.ep_pass.specs.Pass.{alarms_at};
ghost use Rattle.ep_transfers.specs.Cells.{cell_ops};

use crate::alarms::add_faults;
use crate::running::{is_told_so, pair_mode};
use ep_alarms::Alarms;
use ep_core::program::Function;
use ep_core::tree::{Dest, Expr, Stmt};
use ep_domain::Num;
use ep_flows::setting::{Running, Setting};
use ep_int::{Memory, Scalar};
use ep_states::State;

pub(crate) fn simple<N: Num>(
    c: &Setting<'_>,
    mode: Running,
    returns: Option<(u32, Scalar)>,
    s: &Stmt,
    state: State<N>,
    alarms: &mut Alarms,
) -> Result<Option<State<N>>, Memory>
    requires simple { is_simple (what_view s.now.what) ≡ true }
    requires typed { IsTypedSimple (plan_of c.now).program returns (simple_of (what_view s.now.what)) }
    ensures faults { OnOk result (alarms.new ≡ fold added alarms.old (alarms_at s.now.line
        ((ops_for (cell_ops N.ops) (plan_of c.now)).simple (mode_of mode) returns (simple_of (what_view s.now.what))
        state).faults)) }
    ensures next { IfOk result (λ r. r ≡ ((ops_for (cell_ops N.ops) (plan_of c.now)).simple (mode_of mode) returns
        (simple_of (what_view s.now.what)) state).next) }
{
    if !is_told_so(c, &state) {
        return Ok(None);
    }
    let mode = pair_mode(mode);
    let mut faults = Vec::new(c.alloc);
    let next = ep_transfer_simple::simple(
        c.program,
        c.sizes,
        mode,
        returns,
        s,
        state,
        &mut faults,
    )?;
    add_faults(s.line, &faults, alarms)?;
    Ok(next)
}

pub(crate) fn arguments<N: Num>(
    c: &Setting<'_>,
    mode: Running,
    f: &Function,
    es: &[Expr],
    line: u32,
    state: State<N>,
    alarms: &mut Alarms,
) -> Result<Option<State<N>>, Memory>
    requires { AreArguments (plan_of c.now).program (function_view f.now) (map expr_view es.now) }
    ensures faults { OnOk result (alarms.new ≡ fold added alarms.old (alarms_at line
        ((ops_for (cell_ops N.ops) (plan_of c.now)).arguments (mode_of mode) (function_view f.now)
        (map expr_view es.now) state).faults)) }
    ensures next { IfOk result (λ r. r ≡ ((ops_for (cell_ops N.ops) (plan_of c.now)).arguments (mode_of mode)
        (function_view f.now) (map expr_view es.now) state).next) }
{
    if !is_told_so(c, &state) {
        return Ok(None);
    }
    let mode = pair_mode(mode);
    let mut faults = Vec::new(c.alloc);
    let next = ep_transfer_calls::arguments(c.program, c.sizes, mode, f, es, state, &mut faults)?;
    add_faults(line, &faults, alarms)?;
    Ok(next)
}

pub(crate) fn result<N: Num>(
    c: &Setting<'_>,
    mode: Running,
    f: &Function,
    d: &Option<Dest>,
    line: u32,
    state: State<N>,
    alarms: &mut Alarms,
) -> Result<Option<State<N>>, Memory>
    requires { TakesResult (plan_of c.now).program (function_view f.now) (option_map dest_view d.now) }
    ensures faults { OnOk result (alarms.new ≡ fold added alarms.old (alarms_at line
        ((ops_for (cell_ops N.ops) (plan_of c.now)).result (mode_of mode) (function_view f.now)
        (option_map dest_view d.now) state).faults)) }
    ensures next { IfOk result (λ r. r ≡ ((ops_for (cell_ops N.ops) (plan_of c.now)).result (mode_of mode)
        (function_view f.now) (option_map dest_view d.now) state).next) }
{
    if !is_told_so(c, &state) {
        return Ok(None);
    }
    let mode = pair_mode(mode);
    let mut faults = Vec::new(c.alloc);
    let next = ep_transfer_calls::result(c.program, c.sizes, mode, f, d, state, &mut faults)?;
    add_faults(line, &faults, alarms)?;
    Ok(next)
}

// The faults at the end of main become alarms.
pub(crate) fn ended<N: Num>(
    c: &Setting<'_>,
    f: &Function,
    state: &State<N>,
    alarms: &mut Alarms,
) -> Result<(), Memory>
    ensures { OnOk result (alarms.new ≡ fold added alarms.old (alarms_at f.now.line ((ops_for (cell_ops N.ops)
        (plan_of c.now)).ended (function_view f.now) state.now))) }
{
    if !is_told_so(c, state) {
        return Ok(());
    }
    let mut faults = Vec::new(c.alloc);
    ep_transfer_results::ended(c.program, c.sizes, f, state, &mut faults)?;
    add_faults(f.line, &faults, alarms)
}
