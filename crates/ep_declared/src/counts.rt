//! Bounds of arrays.

ghost use Rattle.std.specs.Prelude.{◌≡◌, ◌<◌, map, drop, length, pos, IsTrue, OnOk, Some};
ghost use Rattle.std.specs.Option.{option_map};
ghost use Rattle.ep_ast.specs.Expression as source;
ghost use Rattle.ep_ast.specs.Kind.{array_bound};
ghost use Rattle.ep_layout.specs.Table.{Grows};
ghost use Rattle.ep_typing.specs.Constant.{count_in};
ghost use Rattle.ep_typing.specs.Operand as operand;
ghost use Rattle.ep_typing.specs.Results.{at, needed};
ghost use Rattle.ep_elaboration.specs.Declarators as rule;
ghost use Rattle.ep_operands.specs.Refinement.{Refines};
ghost use Rattle.ep_operands.specs.View as operands;
ghost use Rattle.ep_declared.specs.Counts.{behind, lacks_first};
ghost use Rattle.ep_declared.specs.Refinement.{OnAnswer, RefinesIn};
ghost use Rattle.ep_declared.specs.Open.{Follows, StaysOpen};
ghost use Rattle.ep_scopes.specs.Comes.{Comes};
ghost use Rattle.ep_scopes.specs.Known.{IsKnownEnv};
ghost use Rattle.ep_scopes.specs.View.{env as env_view};

use ep_ast::{ExprTree, Halt, RefusalKind};
use ep_operands::{Operand, count_of, refused, value_of};
use ep_scopes::Env;
use ep_typer_exprs::{mention, typed_alone};

fn counted(env: &Env, line: u32, x: Operand) -> Result<u32, Halt>
    ensures { Refines (λ n. n)
        (at line (rule.counted (operand.value_of (env_view env.now).types (operands.operand x)))) result }
{
    match value_of(env.alloc, &env.types, line, x) {
        Ok(v) => match count_of(&v) {
            Some(n) => Ok(n),
            None => Err(refused(RefusalKind::ArrayBound, line)),
        },
        Err(Halt::Refused(_)) => Err(refused(RefusalKind::ArrayBound, line)),
        Err(Halt::Memory) => Err(Halt::Memory),
    }
}

/// A bound that is there: a constant from 1 to 65,536.
#[tactic(auto, unfolding(ep_elaboration::specs::Declarators::bound))]
pub fn bound(env: &mut Env, line: u32, tree: &ExprTree) -> Result<u32, Halt>
    requires { IsKnownEnv (env_view env.old) }
    ensures means { RefinesIn (λ n. n) (rule.bound (env_view env.old) line (Some (source.expr tree.now)))
        (env_view env.new) result }
    ensures known { OnOk result (IsKnownEnv (env_view env.new)) }
    ensures grown { OnOk result (Grows (env_view env.old).types (env_view env.new).types) }
    ensures stay { OnOk result (StaysOpen (env_view env.old).types (env_view env.new).types) }
    ensures comes { OnAnswer result (Comes (env_view env.old) (env_view env.new)) }
{
    mention(env, tree)?;
    let x = typed_alone(env, line, tree)?;
    let n = counted(env, line, x)?;
    Ok(n)
}

#[tactic(auto, unfolding(ep_elaboration::specs::Declarators::bound))]
fn bound_if(env: &mut Env, line: u32, tree: &Option<ExprTree>) -> Result<u32, Halt>
    requires { IsKnownEnv (env_view env.old) }
    ensures means { RefinesIn (λ n. n) (rule.bound (env_view env.old) line (option_map source.expr tree.now))
        (env_view env.new) result }
    ensures after { OnOk result (Follows (env_view env.old) (env_view env.new)) }
    ensures comes { OnAnswer result (Comes (env_view env.old) (env_view env.new)) }
{
    match tree {
        Some(tree) => bound(env, line, tree),
        None => Err(refused(RefusalKind::ArrayBound, line)),
    }
}

// Bounds from left to right, behind counts that are there.
fn bounds_behind(
    env: &mut Env,
    line: u32,
    done: Vec<u32>,
    list: &[Option<ExprTree>],
) -> Result<Vec<u32>, Halt>
    requires { IsKnownEnv (env_view env.old) }
    ensures means { RefinesIn (λ v. v.items)
        (behind done.items (rule.bounds (env_view env.old) line (map (option_map source.expr) list.now)))
        (env_view env.new) result }
    ensures after { OnOk result (Follows (env_view env.old) (env_view env.new)) }
    ensures comes { OnAnswer result (Comes (env_view env.old) (env_view env.new)) }
{
    let mut counts = done;
    for tree in list {
        let n = bound_if(env, line, tree)?;
        counts.push(n)?;
    }
    Ok(counts)
}

/// Bounds from left to right, on the line of the declared name.
pub fn bounds(env: &mut Env, line: u32, list: &[Option<ExprTree>]) -> Result<Vec<u32>, Halt>
    requires { IsKnownEnv (env_view env.old) }
    ensures means { RefinesIn (λ v. v.items)
        (rule.bounds (env_view env.old) line (map (option_map source.expr) list.now))
        (env_view env.new) result }
    ensures known { OnOk result (IsKnownEnv (env_view env.new)) }
    ensures grown { OnOk result (Grows (env_view env.old).types (env_view env.new).types) }
    ensures stay { OnOk result (StaysOpen (env_view env.old).types (env_view env.new).types) }
    ensures comes { OnAnswer result (Comes (env_view env.old) (env_view env.new)) }
{
    bounds_behind(env, line, Vec::new(env.alloc), list)
}

// How many values a list gives, as a bound.
fn listed_count(line: u32, n: usize) -> Result<u32, Halt>
    ensures { Refines (λ k. k) (at line (needed array_bound (count_in (pos n)))) result }
{
    if (1 <= n) & (n <= 65_536) {
        return Ok(n as u32);
    }
    Err(refused(RefusalKind::ArrayBound, line))
}

fn lacks_first(list: &[Option<ExprTree>]) -> bool
    ensures { result ≡ lacks_first (map (option_map source.expr) list.now) }
{
    match list.first() {
        None => false,
        Some(None) => true,
        Some(Some(_)) => false,
    }
}

fn behind_first(list: &[Option<ExprTree>]) -> &[Option<ExprTree>]
    requires { 0 < length list.now }
    ensures { result.now ≡ drop 1 list.now }
{
    list.split_at(1).1
}

// Bounds of which the first is left out, and a list gives it.
#[tactic(auto, unfolding(ep_elaboration::specs::Declarators::object_bounds))]
fn listed_bounds(
    env: &mut Env,
    line: u32,
    n: usize,
    list: &[Option<ExprTree>],
) -> Result<Vec<u32>, Halt>
    requires known { IsKnownEnv (env_view env.old) }
    requires lacking { IsTrue (lacks_first (map (option_map source.expr) list.now)) }
    ensures means { RefinesIn (λ v. v.items)
        (rule.object_bounds (env_view env.old) line (Some n) (map (option_map source.expr) list.now))
        (env_view env.new) result }
    ensures after { OnOk result (Follows (env_view env.old) (env_view env.new)) }
{
    let first = listed_count(line, n)?;
    let mut counts = Vec::new(env.alloc);
    counts.push(first)?;
    bounds_behind(env, line, counts, behind_first(list))
}

/// The bounds of an object, where a list may give the first.
#[tactic(auto, unfolding(ep_elaboration::specs::Declarators::object_bounds))]
pub(crate) fn object_bounds(
    env: &mut Env,
    line: u32,
    listed: Option<usize>,
    list: &[Option<ExprTree>],
) -> Result<Vec<u32>, Halt>
    requires { IsKnownEnv (env_view env.old) }
    ensures means { RefinesIn (λ v. v.items)
        (rule.object_bounds (env_view env.old) line listed (map (option_map source.expr) list.now))
        (env_view env.new) result }
    ensures after { OnOk result (Follows (env_view env.old) (env_view env.new)) }
{
    match listed {
        None => bounds_behind(env, line, Vec::new(env.alloc), list),
        Some(n) => {
            if lacks_first(list) {
                return listed_bounds(env, line, n, list);
            }
            bounds_behind(env, line, Vec::new(env.alloc), list)
        }
    }
}
