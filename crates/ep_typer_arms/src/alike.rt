//! Whether two arms define the same functions.

ghost use Rattle.std.specs.Prelude.{◌≡◌, ◌&&◌, ℕ, List, map, IfOk, OnOk};
ghost use Rattle.ep_ast.specs.Declaration.{Head, head_of};
ghost use Rattle.ep_ast.specs.Statement.{function_of};
ghost use Rattle.ep_layout.specs.Table.{IsBuilt};
ghost use Rattle.ep_typing.specs.Env.{Env as Around};
ghost use Rattle.ep_declared.specs.Refinement.{OnAnswer, RefinesIn};
ghost use Rattle.ep_elaboration.specs.Declarators.{with_types};
ghost use Rattle.ep_elaboration.specs.Functions as rule;
ghost use Rattle.ep_elaboration.specs.FunctionSteps as steps;
ghost use Rattle.ep_scopes.specs.Comes.{Comes, IsMarkOf};
ghost use Rattle.ep_scopes.specs.Known.{IsKnownEnv};
ghost use Rattle.ep_scopes.specs.View.{env as env_view};
ghost use Rattle.ep_typer_arms.specs.FileEnvironments.{IsFileEnv};
ghost use Rattle.ep_typer_functions.specs.View.{AreDone, headed as headed_view};

use crate::heads::are_named_alike;
use ep_ast::{FunctionTree, Halt, HeadTree};
use ep_int::Memory;
use ep_scopes::{Env, EnvMark, FunctionType};
use ep_typer_functions::{Done, declarable, headed, is_same_signature, next_block};

// The type of a function by its head alone. What the head declares is left.
fn stands_alone(env: &mut Env, done: &Done, head: &HeadTree) -> Result<FunctionType, Halt>
    requires { IsKnownEnv (env_view env.old) }
    ensures means { (ds : List ℕ) → AreDone done.now ds
        → RefinesIn headed_view (steps.stands_alone (env_view env.old) ds (head_of head.now))
        (with_types (env_view env.old) (env_view env.new).types) result }
    ensures comes { OnAnswer result (Comes (env_view env.old) (env_view env.new)) }
{
    let block = next_block(env)?;
    let ty = headed(env, block, head)?;
    env.scopes.leave();
    declarable(env, done, true, head.line, &head.name, &ty)?;
    Ok(ty)
}

// Whether a head has this type; one that is refused has any.
fn is_alike(
    env: &mut Env,
    done: &Done,
    ty: &FunctionType,
    second: &HeadTree,
) -> Result<bool, Memory>
    requires { IsKnownEnv (env_view env.old) }
    ensures means { (ds : List ℕ) → AreDone done.now ds → (h : Head) → (G : Around)
        → IfOk result (λ b. b ≡ steps.is_alike h (headed_view ty.now, G) (head_of second.now)
        (steps.stands_alone (env_view env.old) ds (head_of second.now))) }
    ensures comes { OnOk result (Comes (env_view env.old) (env_view env.new)) }
{
    match stands_alone(env, done, second) {
        Ok(other) => Ok(is_same_signature(ty, &other)),
        Err(Halt::Refused(_)) => Ok(true),
        Err(Halt::Memory) => Err(Memory),
    }
}

// Whether two heads are of one type, the second over the types of the first. What the heads declare is left.
fn compared(
    env: &mut Env,
    mark: EnvMark,
    done: &Done,
    first: &HeadTree,
    second: &HeadTree,
) -> Result<bool, Memory>
    requires known { IsKnownEnv (env_view env.old) }
    requires file { IsFileEnv (env_view env.old) }
    requires mark { IsMarkOf mark (env_view env.old) }
    requires built { IsBuilt (env_view env.old).types }
    ensures means { (ds : List ℕ) → AreDone done.now ds
        → IfOk result (λ b. b ≡ steps.are_alike (env_view env.old) ds (head_of first.now) (head_of second.now)) }
    ensures comes { OnOk result (Comes (env_view env.old) (env_view env.new)) }
{
    match stands_alone(env, done, first) {
        Ok(ty) => {
            env.rewind_names(mark)?;
            is_alike(env, done, &ty, second)
        }
        Err(stop) => match stop {
            Halt::Refused(_) => Ok(true),
            Halt::Memory => Err(Memory),
        },
    }
}

// Whether two heads are of one type, where neither is refused.
fn are_alike(
    env: &mut Env,
    done: &Done,
    first: &HeadTree,
    second: &HeadTree,
) -> Result<bool, Memory>
    requires known { IsKnownEnv (env_view env.old) }
    requires file { IsFileEnv (env_view env.old) }
    ensures means { (ds : List ℕ) → AreDone done.now ds
        → IfOk result (λ b. b ≡ steps.are_alike (env_view env.old) ds (head_of first.now) (head_of second.now)) }
    ensures same { OnOk result (env_view env.new ≡ env_view env.old) }
{
    let mark = env.mark();
    let alike = compared(env, mark, done, first, second)?;
    env.rewind(mark)?;
    Ok(alike)
}

fn heads_agree(
    env: &mut Env,
    done: &Done,
    first: &HeadTree,
    second: &HeadTree,
) -> Result<bool, Memory>
    requires known { IsKnownEnv (env_view env.old) }
    requires file { IsFileEnv (env_view env.old) }
    ensures means { (ds : List ℕ) → AreDone done.now ds
        → IfOk result (λ b. b ≡ (rule.are_named_alike (head_of first.now) (head_of second.now)
        && steps.are_alike (env_view env.old) ds (head_of first.now) (head_of second.now))) }
    ensures same { OnOk result (env_view env.new ≡ env_view env.old) }
{
    if !are_named_alike(first, second) {
        return Ok(false);
    }
    are_alike(env, done, first, second)
}

/// Whether two arms define functions of the same names and types in the same order, with the same names of parameters.
pub(crate) fn arms_agree(
    env: &mut Env,
    done: &Done,
    first: &[FunctionTree],
    second: &[FunctionTree],
) -> Result<bool, Memory>
    requires known { IsKnownEnv (env_view env.old) }
    requires file { IsFileEnv (env_view env.old) }
    ensures means { (ds : List ℕ) → AreDone done.now ds → IfOk result (λ b. b
        ≡ steps.arms_agree (env_view env.old) ds (map function_of first.now) (map function_of second.now)) }
    ensures same { OnOk result (env_view env.new ≡ env_view env.old) }
{
    if first.len() != second.len() {
        return Ok(false);
    }
    for (place, tree) in first.iter().enumerate() {
        let agree = heads_agree(env, done, &tree.head, &second[place].head)?;
        if !agree {
            return Ok(false);
        }
    }
    Ok(true)
}
