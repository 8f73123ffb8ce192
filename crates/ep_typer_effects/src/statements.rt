//! Tests, and expressions as whole statements.

ghost use Rattle.std.specs.Prelude.{◌≡◌, ◌==◌, false, map};
ghost use Rattle.ep_ast.specs.Expression as source;
ghost use Rattle.ep_ast.specs.Mark.{equal, mark_number};
ghost use Rattle.ep_core.specs.View.{expr_view, what_view};
ghost use Rattle.ep_typing.specs.Typing as rule;
ghost use Rattle.ep_operands.specs.Refinement.{Refines};
ghost use Rattle.ep_scopes.specs.View.{env as env_view};
ghost use Rattle.ep_typer_effects.specs.Whole as whole;

use crate::assignments::{assignment, stepped};
use crate::calls::call_typed;
use ep_ast::{ExprTree, Halt, Mark};
use ep_core::tree::{Expr, What};
use ep_operands::{tested, value_of};
use ep_places::is_mark;
use ep_scopes::Env;
use ep_typer_exprs::typed;

/// The scalar that an `if` or a loop tests, or that is evaluated alone.
pub fn test(env: &Env, tree: &ExprTree) -> Result<Expr, Halt>
    ensures { Refines expr_view (rule.test (env_view env.now) (source.expr tree.now)) result }
{
    let x = typed(env, tree)?;
    let line = tree.line();
    let v = value_of(env.alloc, &env.types, line, x)?;
    tested(line, v)
}

fn evaluated(env: &Env, tree: &ExprTree) -> Result<What, Halt>
    ensures { Refines what_view (whole.evaluated (env_view env.now) (source.expr tree.now)) result }
{
    let e = test(env, tree)?;
    Ok(What::Eval(e))
}

fn called_alone(env: &Env, line: u32, f: &ExprTree, list: &[ExprTree]) -> Result<What, Halt>
    ensures { Refines what_view (whole.called_alone (env_view env.now) line (source.expr f.now)
        (source.to_exprs (map source.expr list.now))) result }
{
    let called = call_typed(env, line, f, list)?;
    Ok(called.into_statement(None))
}

fn step_mark(mark: Mark) -> Mark
    ensures is { mark_number result ≡ rule.step_mark (mark_number mark) }
    ensures other { mark_number result == equal ≡ false }
{
    if is_mark(mark, Mark::PlusPlus) {
        return Mark::PlusEqual;
    }
    Mark::MinusEqual
}

/// An expression as a whole statement, where a call may stand or not.
#[tactic(auto, unfolding(ep_typing::specs::Typing::whole_statement))]
pub fn whole_statement(env: &Env, may_call: bool, tree: &ExprTree) -> Result<What, Halt>
    ensures { Refines what_view (rule.whole_statement (env_view env.now) may_call (source.expr tree.now)) result }
{
    match tree {
        ExprTree::Assign(line, mark, a, b) => assignment(env, may_call, *line, *mark, a, b),
        ExprTree::Step(line, mark, a) => stepped(env, *line, step_mark(*mark), a),
        ExprTree::PostIncrement(line, a) => stepped(env, *line, Mark::PlusEqual, a),
        ExprTree::PostDecrement(line, a) => stepped(env, *line, Mark::MinusEqual, a),
        ExprTree::Call(line, f, list) => {
            if may_call {
                called_alone(env, *line, f, list)
            } else {
                evaluated(env, tree)
            }
        }
        _ => evaluated(env, tree),
    }
}
