//! What an expression stands for.

ghost use Rattle.std.specs.Prelude.{◌≡◌, map, OnOk};
ghost use Rattle.ep_ast.specs.Expression as source;
ghost use Rattle.ep_ast.specs.Mark.{mark_number};
ghost use Rattle.ep_typing.specs.Names.{mentioned};
ghost use Rattle.ep_typing.specs.Results.{on_statement};
ghost use Rattle.ep_typing.specs.Typing as rule;
ghost use Rattle.ep_operands.specs.Refinement.{Refines};
ghost use Rattle.ep_operands.specs.View as view;
ghost use Rattle.ep_scopes.specs.Known.{IsKnownEnv};
ghost use Rattle.ep_scopes.specs.View.{env as env_view};
ghost use Rattle.ep_typer_exprs.specs.Behind as behind;

use crate::fields::{selected_behind, selected_in};
use crate::mentions::mention;
use crate::nodes::{
    cast_to, chosen_from, indexed_by, joined, named_uncalled, read_first, size_of, size_of_type,
    valued,
};
use ep_ast::{ExprTree, Halt, Mark, RefusalKind, TypeNameTree};
use ep_operands::{Operand, Value, at_statement, numbered, refused};
use ep_places::{indexable, unary_typed};
use ep_scopes::{Env, named, named_type};

/// What an expression stands for, where the environment has what it mentions.
#[cycle(walk)]
#[tactic(auto, unfolding(ep_typing::specs::Typing::typed))]
pub fn typed(env: &Env, tree: &ExprTree) -> Result<Operand, Halt>
    ensures { Refines view.operand (rule.typed (env_view env.now) (source.expr tree.now)) result }
{
    match tree {
        ExprTree::Assign(line, mark, a, b) => assigned(env, *line, *mark, typed(env, a)?, b),
        ExprTree::Conditional(line, test, a, b) => {
            let test = valued(env, *line, typed(env, test)?)?;
            chosen(env, *line, test, typed(env, a)?, b)
        }
        ExprTree::Binary(line, mark, a, b) => combined(env, *line, *mark, typed(env, a)?, b),
        ExprTree::Cast(line, name, a) => cast(env, *line, name, a),
        ExprTree::Step(line, _, a) => stepped(env, *line, a),
        ExprTree::Unary(line, mark, a) => prefixed(env, *line, *mark, a),
        ExprTree::SizeofExpr(line, a) => measured(env, *line, a),
        ExprTree::SizeofType(line, name) => size_of_type(env, *line, named_type(env, name)?),
        ExprTree::Index(line, a, b) => element(env, *line, typed(env, a)?, b),
        ExprTree::Call(line, f, list) => {
            callee(env, f)?;
            typed_all(env, *line, list)?;
            Err(refused(RefusalKind::CallInExpression, *line))
        }
        ExprTree::Member(line, a, name) => selected_in(env, *line, typed(env, a)?, name),
        ExprTree::Arrow(line, a, name) => pointed(env, *line, a, name),
        ExprTree::PostIncrement(line, a) => stepped(env, *line, a),
        ExprTree::PostDecrement(line, a) => stepped(env, *line, a),
        ExprTree::Id(line, name) => named_uncalled(env, *line, name),
        ExprTree::Number(_, n) => Ok(numbered(env.types.model(), *n)),
    }
}

// What comes behind the first operand stands in functions of its own: its values would else have room in the frame of
// each call, and a call clears its frame.

#[cycle(walk)]
fn assigned(env: &Env, line: u32, mark: Mark, x: Operand, b: &ExprTree) -> Result<Operand, Halt>
    ensures { Refines view.operand (behind.assigned (env_view env.now) line (mark_number mark) (view.operand x)
        (source.expr b.now)) result }
{
    read_first(env, line, mark, x)?;
    typed(env, b)?;
    Err(refused(RefusalKind::AssignmentInExpression, line))
}

#[cycle(walk)]
fn chosen(env: &Env, line: u32, test: Value, x: Operand, b: &ExprTree) -> Result<Operand, Halt>
    ensures { Refines view.operand (behind.chosen (env_view env.now) line (view.value test) (view.operand x)
        (source.expr b.now)) result }
{
    let yes = valued(env, line, x)?;
    chosen_from(env, line, test, yes, typed(env, b)?)
}

#[cycle(walk)]
fn combined(env: &Env, line: u32, mark: Mark, x: Operand, b: &ExprTree) -> Result<Operand, Halt>
    ensures { Refines view.operand (behind.combined (env_view env.now) line (mark_number mark) (view.operand x)
        (source.expr b.now)) result }
{
    let left = valued(env, line, x)?;
    joined(env, line, mark, left, typed(env, b)?)
}

#[cycle(walk)]
#[tactic(auto, unfolding(ep_typing::specs::Typing::typed))]
fn cast(env: &Env, line: u32, name: &TypeNameTree, a: &ExprTree) -> Result<Operand, Halt>
    ensures { Refines view.operand (rule.typed (env_view env.now)
        (source.cast line (source.type_name name.now) (source.expr a.now))) result }
{
    let c = named_type(env, name)?;
    cast_to(env, line, c, typed(env, a)?)
}

#[cycle(walk)]
#[tactic(auto, unfolding(ep_typing::specs::Typing::typed))]
fn prefixed(env: &Env, line: u32, mark: Mark, a: &ExprTree) -> Result<Operand, Halt>
    ensures { Refines view.operand (rule.typed (env_view env.now)
        (source.unary line (mark_number mark) (source.expr a.now))) result }
{
    unary_typed(env.alloc, &env.types, line, mark, typed(env, a)?)
}

#[cycle(walk)]
#[tactic(auto, unfolding(ep_typing::specs::Typing::typed))]
fn measured(env: &Env, line: u32, a: &ExprTree) -> Result<Operand, Halt>
    ensures { Refines view.operand (rule.typed (env_view env.now)
        (source.sizeof_expr line (source.expr a.now))) result }
{
    size_of(env, line, typed(env, a)?)
}

#[cycle(walk)]
fn element(env: &Env, line: u32, x: Operand, b: &ExprTree) -> Result<Operand, Halt>
    ensures { Refines view.operand
        (behind.element (env_view env.now) line (view.operand x) (source.expr b.now)) result }
{
    let x = indexable(env.alloc, &env.types, line, x)?;
    indexed_by(env, line, x, typed(env, b)?)
}

#[cycle(walk)]
#[tactic(auto, unfolding(ep_typing::specs::Typing::typed))]
fn pointed(env: &Env, line: u32, a: &ExprTree, name: &[u8]) -> Result<Operand, Halt>
    ensures { Refines view.operand (rule.typed (env_view env.now)
        (source.arrow line (source.expr a.now) name.now)) result }
{
    selected_behind(env, line, typed(env, a)?, name)
}

/// What is called: a function by its name, or what another expression stands for.
#[cycle(walk)]
pub fn callee(env: &Env, tree: &ExprTree) -> Result<Operand, Halt>
    ensures { Refines view.operand (rule.callee (env_view env.now) (source.expr tree.now)
        (rule.typed (env_view env.now) (source.expr tree.now))) result }
{
    match tree {
        ExprTree::Id(line, name) => named(env, *line, name),
        _ => typed(env, tree),
    }
}

/// `++` or `--`, before an operand or behind it: neither may stand in an expression.
#[cycle(walk)]
#[tactic(auto, unfolding(ep_typing::specs::Typing::typed))]
fn stepped(env: &Env, line: u32, a: &ExprTree) -> Result<Operand, Halt>
    ensures { Refines view.operand (rule.typed (env_view env.now)
        (source.post_increment line (source.expr a.now))) result }
{
    typed(env, a)?;
    Err(refused(RefusalKind::AssignmentInExpression, line))
}

/// The values of a call's arguments.
#[cycle(walk)]
#[tactic(auto, unfolding(ep_typing::specs::Typing::typed_all))]
pub fn typed_all(env: &Env, line: u32, list: &[ExprTree]) -> Result<Vec<Value>, Halt>
    ensures { Refines (λ v. map view.value v.items)
        (rule.typed_all (env_view env.now) line (source.to_exprs (map source.expr list.now))) result }
{
    let mut all = Vec::new(env.alloc);
    for tree in list {
        let x = typed(env, tree)?;
        let v = valued(env, line, x)?;
        all.push(v)?;
    }
    Ok(all)
}

/// What an expression stands for that is read by itself. A bit-field, which it can't be, is named on this line.
pub fn typed_alone(env: &Env, line: u32, tree: &ExprTree) -> Result<Operand, Halt>
    ensures { Refines view.operand
        (on_statement line (rule.typed (env_view env.now) (source.expr tree.now))) result }
{
    match typed(env, tree) {
        Ok(x) => Ok(x),
        Err(halt) => Err(at_statement(line, halt)),
    }
}

/// What an expression stands for, after the tags and types that it mentions.
pub fn meaning(env: &mut Env, tree: &ExprTree) -> Result<Operand, Halt>
    requires { IsKnownEnv (env_view env.old) }
    ensures means { Refines view.operand (rule.meaning (env_view env.old) (source.expr tree.now)) result }
    ensures declares { OnOk result (env_view env.new ≡ mentioned (env_view env.old) (source.expr tree.now)) }
    ensures known { OnOk result (IsKnownEnv (env_view env.new)) }
{
    mention(env, tree)?;
    typed(env, tree)
}
