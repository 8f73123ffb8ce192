//! What an analysis keeps of the states of two machines.

ghost use Rattle.std.specs.Prelude.{◌≡◌, ◌↔◌, true, IfOk, IsTrue, OnOk, Some, fold, map, slice_get};
ghost use Rattle.std.specs.Option.{option_map};
ghost use Rattle.ep_alarms.specs.Report.{added};
ghost use Rattle.ep_core.specs.View.{dest_view, expr_view, function_view, what_view};
ghost use Rattle.ep_core.specs.Program.{Program};
ghost use Rattle.ep_core.specs.Runs.{Side};
ghost use Rattle.ep_int.specs.declared.types.Order.{Order};
ghost use Rattle.ep_pass.specs.Pass.{alarms_at};
ghost use Rattle.ep_pass.specs.States.{StateOps};
ghost use Rattle.ep_flows.specs.Typed.{AreArguments, IsTypedSimple, IsTypedTest, TakesResult};
ghost use Rattle.ep_flows.specs.View.{is_simple, mode_of, ops_for, plan_of, side_of, simple_of, verdict_of};

use crate::setting::{Machine, Running, Setting, Truths};
use ep_alarms::Alarms;
use ep_core::program::Function;
use ep_core::tree::{Dest, Expr, Stmt};
use ep_int::{Memory, Scalar};

/// States of any kind, with the operations of an analysis. `None` says that no state is reached. What is changed is
/// taken by value, and an error drops it.
pub trait AbstractStates: Drop {
    /// The operations on states that are kept of a program, for two byte orders.
    ghost ops: { Program → (Side → Order) → StateOps Self };

    /// At the beginning of main.
    fn entry(c: &Setting<'_>) -> Result<Self, Memory>
        ensures { IfOk result (λ s. s ≡ (ops_for ops (plan_of c.now)).entry) };

    /// The same state again.
    fn copied(&self) -> Result<Self, Memory>
        ensures { IfOk result (λ s. s ≡ self.now) };

    /// The state after a statement without statements in it; its faults become alarms. `returns` is the block and the
    /// type of the function's result.
    fn simple(
        self,
        c: &Setting<'_>,
        mode: Running,
        returns: Option<(u32, Scalar)>,
        s: &Stmt,
        alarms: &mut Alarms,
    ) -> Result<Option<Self>, Memory>
        requires simple { is_simple (what_view s.now.what) ≡ true }
        requires typed { IsTypedSimple (plan_of c.now).program returns (simple_of (what_view s.now.what)) }
        ensures faults { OnOk result (alarms.new ≡ fold added alarms.old (alarms_at s.now.line
            ((ops_for ops (plan_of c.now)).simple (mode_of mode) returns (simple_of (what_view s.now.what))
            self).faults)) }
        ensures next { IfOk result (λ r. r ≡ ((ops_for ops (plan_of c.now)).simple (mode_of mode) returns (simple_of
            (what_view s.now.what)) self).next) };

    /// What is known of a test's truths; its faults become alarms.
    fn test(
        &self,
        c: &Setting<'_>,
        mode: Running,
        e: &Expr,
        line: u32,
        alarms: &mut Alarms,
    ) -> Result<Truths, Memory>
        requires { IsTypedTest (plan_of c.now).program (expr_view e.now) }
        ensures faults { OnOk result (alarms.new ≡ fold added alarms.old (alarms_at line
            ((ops_for ops (plan_of c.now)).test (mode_of mode) (expr_view e.now) self.now).faults)) }
        ensures truths { IfOk result (λ v. verdict_of v ≡ ((ops_for ops (plan_of c.now)).test (mode_of mode)
            (expr_view e.now) self.now).verdict) };

    /// Where both sides run and a test has these truths: a copy, made only where it is reached.
    fn assume(
        &self,
        c: &Setting<'_>,
        e: &Expr,
        on_left: bool,
        on_right: bool,
    ) -> Result<Option<Self>, Memory>
        requires { IsTypedTest (plan_of c.now).program (expr_view e.now) }
        ensures { IfOk result (λ r. r ≡ (ops_for ops (plan_of c.now)).assume (expr_view e.now) on_left on_right
            self.now) };

    /// Where one side runs and its test has this truth.
    fn assume_one(
        &self,
        c: &Setting<'_>,
        machine: Machine,
        e: &Expr,
        truth: bool,
    ) -> Result<Option<Self>, Memory>
        requires { IsTypedTest (plan_of c.now).program (expr_view e.now) }
        ensures { IfOk result (λ r. r ≡ (ops_for ops (plan_of c.now)).assume_one (side_of machine)
            (expr_view e.now) truth self.now) };

    /// Of a call: its arguments go to the parameters.
    fn arguments(
        self,
        c: &Setting<'_>,
        mode: Running,
        f: &Function,
        es: &[Expr],
        line: u32,
        alarms: &mut Alarms,
    ) -> Result<Option<Self>, Memory>
        requires { AreArguments (plan_of c.now).program (function_view f.now) (map expr_view es.now) }
        ensures faults { OnOk result (alarms.new ≡ fold added alarms.old (alarms_at line
            ((ops_for ops (plan_of c.now)).arguments (mode_of mode) (function_view f.now)
            (map expr_view es.now) self).faults)) }
        ensures next { IfOk result (λ r. r ≡ ((ops_for ops (plan_of c.now)).arguments (mode_of mode)
            (function_view f.now) (map expr_view es.now) self).next) };

    /// Of a call whose body is left: its result goes to its place.
    fn result(
        self,
        c: &Setting<'_>,
        mode: Running,
        f: &Function,
        d: &Option<Dest>,
        line: u32,
        alarms: &mut Alarms,
    ) -> Result<Option<Self>, Memory>
        requires { TakesResult (plan_of c.now).program (function_view f.now) (option_map dest_view d.now) }
        ensures faults { OnOk result (alarms.new ≡ fold added alarms.old (alarms_at line
            ((ops_for ops (plan_of c.now)).result (mode_of mode) (function_view f.now) (option_map dest_view d.now)
            self).faults)) }
        ensures next { IfOk result (λ r. r ≡ ((ops_for ops (plan_of c.now)).result (mode_of mode)
            (function_view f.now) (option_map dest_view d.now) self).next) };

    fn enter(self, c: &Setting<'_>, mode: Running, blocks: &[u32]) -> Result<Self, Memory>
        ensures { IfOk result (λ s. s ≡ (ops_for ops (plan_of c.now)).enter (mode_of mode) blocks.now self) };

    fn leave(self, c: &Setting<'_>, mode: Running, blocks: &[u32]) -> Result<Self, Memory>
        ensures { IfOk result (λ s. s ≡ (ops_for ops (plan_of c.now)).leave (mode_of mode) blocks.now self) };

    /// Two states brought to one shape.
    fn unified(self, c: &Setting<'_>, other: Self) -> Result<(Self, Self), Memory>
        ensures { IfOk result (λ r. r ≡ (ops_for ops (plan_of c.now)).unified self other) };

    fn joined(self, c: &Setting<'_>, other: Self) -> Result<Self, Memory>
        ensures { IfOk result (λ s. s ≡ (ops_for ops (plan_of c.now)).joined self other) };

    fn widened(self, c: &Setting<'_>, other: Self) -> Result<Self, Memory>
        ensures { IfOk result (λ s. s ≡ (ops_for ops (plan_of c.now)).widened self other) };

    fn leq(&self, c: &Setting<'_>, other: &Self) -> bool
        ensures { result ≡ (ops_for ops (plan_of c.now)).leq self.now other.now };

    fn reshared(self, c: &Setting<'_>) -> Result<Self, Memory>
        ensures { IfOk result (λ s. s ≡ (ops_for ops (plan_of c.now)).reshared self) };

    /// Stands for all memories.
    fn empty(c: &Setting<'_>) -> Result<Self, Memory>
        ensures { IfOk result (λ s. s ≡ (ops_for ops (plan_of c.now)).empty) };

    /// The faults at the end of main become alarms.
    fn ended(&self, c: &Setting<'_>, f: &Function, alarms: &mut Alarms) -> Result<(), Memory>
        requires { slice_get (plan_of c.now).program.functions (plan_of c.now).program.main ≡ Some
            (function_view f.now) }
        ensures { OnOk result (alarms.new ≡ fold added alarms.old (alarms_at f.now.line ((ops_for ops
            (plan_of c.now)).ended (function_view f.now) self.now))) };

    /// Whether two states are the same.
    fn is_same(&self, other: &Self) -> bool
        ensures { IsTrue result ↔ (self.now ≡ other.now) };
}
