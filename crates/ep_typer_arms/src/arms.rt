//! The functions of two arms.

ghost use Rattle.std.specs.Prelude.{◌≡◌, ℕ, List, drop, map, OnOk};
ghost use Rattle.ep_ast.specs.Statement.{function_of};
ghost use Rattle.ep_declared.specs.Refinement.{RefinesIn};
ghost use Rattle.ep_defined.specs.View.{defined as defined_view};
ghost use Rattle.ep_elaboration.specs.Functions as rule;
ghost use Rattle.ep_elaboration.specs.FunctionSteps as steps;
ghost use Rattle.ep_scopes.specs.Known.{IsKnownEnv};
ghost use Rattle.ep_scopes.specs.View.{env as env_view};
ghost use Rattle.ep_typer_arms.specs.FileEnvironments.{IsFileEnv, first_arm};
ghost use Rattle.ep_typer_functions.specs.BodyView as bodies;
ghost use Rattle.ep_typer_functions.specs.View.{AreDone};

use crate::alike::arms_agree;
use crate::joining::all_joined;
use ep_ast::{FunctionTree, Halt, NamedOrder, RefusalKind};
use ep_defined::Defined;
use ep_operands::refused;
use ep_scopes::Env;
use ep_typer_functions::{Body, Done, function_defined, function_typed};

// The functions of the first arm.
fn functions_defined(
    env: &mut Env,
    done: &Done,
    list: &[FunctionTree],
) -> Result<Vec<Defined>, Halt>
    requires { IsKnownEnv (env_view env.old) }
    ensures means { (ds : List ℕ) → AreDone done.now ds → RefinesIn (λ v. map defined_view v.items)
        (steps.functions_defined (env_view env.old) ds (map function_of list.now)) (env_view env.new) result }
    ensures known { OnOk result (IsKnownEnv (env_view env.new)) }
{
    let mut marked = done.copy(env.alloc)?;
    let mut all = Vec::new(env.alloc);
    for tree in list {
        let one = function_defined(env, &marked, tree)?;
        marked.add(one.number)?;
        all.push(one)?;
    }
    Ok(all)
}

// The same with the scopes that were there before.
fn first_defined(env: &mut Env, done: &Done, list: &[FunctionTree]) -> Result<Vec<Defined>, Halt>
    requires known { IsKnownEnv (env_view env.old) }
    requires file { IsFileEnv (env_view env.old) }
    ensures means { (ds : List ℕ) → AreDone done.now ds → RefinesIn (λ v. map defined_view v.items)
        (first_arm (env_view env.old) ds (map function_of list.now)) (env_view env.new) result }
    ensures known { OnOk result (IsKnownEnv (env_view env.new)) }
{
    let mark = env.scopes.mark();
    let all = functions_defined(env, done, list)?;
    env.scopes.rewind(mark)?;
    Ok(all)
}

// The first block of a function of the first arm, or 0 where there is none.
fn first_block(defined: &[Defined], place: usize) -> u32
    ensures { result ≡ rule.first_block (map defined_view (drop place defined.now)) }
{
    match defined.get(place) {
        Some(one) => one.first,
        None => 0,
    }
}

// The bodies of the second arm, each over the blocks of the function that it stands for.
fn others_typed(
    env: &mut Env,
    done: &Done,
    defined: &[Defined],
    list: &[FunctionTree],
) -> Result<Vec<Body>, Halt>
    requires { IsKnownEnv (env_view env.old) }
    ensures means { (ds : List ℕ) → AreDone done.now ds → RefinesIn (λ v. map bodies.body v.items)
        (steps.others_typed (env_view env.old) ds (map defined_view defined.now) (map function_of list.now))
        (env_view env.new) result }
    ensures known { OnOk result (IsKnownEnv (env_view env.new)) }
{
    let mut marked = done.copy(env.alloc)?;
    let mut all = Vec::new(env.alloc);
    for (place, tree) in list.iter().enumerate() {
        let typed = function_typed(env, first_block(defined, place), false, &marked, tree)?;
        marked.add(typed.number)?;
        all.push(typed.body)?;
    }
    Ok(all)
}

/// The functions of two arms by byte order, each pair as one function. The environment has to be that of a text's
/// items so far, since the scopes that stood before the first arm come back behind it.
pub fn arms_defined(
    env: &mut Env,
    done: &Done,
    line: u32,
    order: NamedOrder,
    first: &[FunctionTree],
    second: &[FunctionTree],
) -> Result<Vec<Defined>, Halt>
    requires known { IsKnownEnv (env_view env.old) }
    requires file { IsFileEnv (env_view env.old) }
    ensures means { (ds : List ℕ) → AreDone done.now ds
        → RefinesIn (λ v. map defined_view v.items) (steps.arms_defined (env_view env.old) ds line order
        (map function_of first.now) (map function_of second.now)) (env_view env.new) result }
    ensures known { OnOk result (IsKnownEnv (env_view env.new)) }
{
    let agree = arms_agree(env, done, first, second)?;
    if !agree {
        return Err(refused(RefusalKind::ConditionalArms, line));
    }
    let defined = first_defined(env, done, first)?;
    let bodies = others_typed(env, done, &defined, second)?;
    let all = all_joined(env.alloc, line, order, first, defined, bodies)?;
    Ok(all)
}
