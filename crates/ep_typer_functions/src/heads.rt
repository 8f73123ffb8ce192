//! Heads of functions.

ghost use Rattle.std.specs.Prelude.{◌≡◌, ◌≤◌, ◌^◌, map, IfErr, IfOk, OnOk};
ghost use Rattle.std.specs.Option.{option_map};
ghost use Rattle.ep_ast.specs.Declaration as shape;
ghost use Rattle.ep_typing.specs.Results.{at};
ghost use Rattle.ep_declared.specs.Refinement.{OnAnswer, RefinesIn};
ghost use Rattle.ep_elaboration.specs.Functions as rule;
ghost use Rattle.ep_elaboration.specs.Statements.{entered, left};
ghost use Rattle.ep_operands.specs.Refinement.{Refines};
ghost use Rattle.ep_elaboration.specs.Declarators.{with_types};
ghost use Rattle.ep_typing.specs.Types.{with_c_type};
ghost use Rattle.ep_scopes.specs.Comes.{Comes};
ghost use Rattle.ep_scopes.specs.Known.{IsKnown, IsKnownEnv};
ghost use Rattle.ep_scopes.specs.View.{env as env_view};
ghost use Rattle.ep_typer_functions.specs.View as view;

use crate::params::{add, params_declared, starred};
use ep_ast::{Halt, HeadTree, ParamTree, ParamsTree, RefusalKind};
use ep_declared::specs_declared;
use ep_int::Memory;
use ep_operands::{is_aggregate, is_array, is_void, one_behind, refused};
use ep_scopes::{Env, FunctionType};
use ep_typing::CType;

fn given_back(line: u32, c: CType) -> Result<CType, Halt>
    ensures { Refines (λ d. d) (at line (rule.given_back c)) result }
{
    if is_aggregate(c) {
        return Err(refused(RefusalKind::StructByValue, line));
    }
    if is_array(c) {
        return Err(refused(RefusalKind::StructByValue, line));
    }
    Ok(c)
}

/// The parameters of a head; one that says `void` has none.
pub fn params_of(params: &Option<ParamsTree>) -> &[ParamTree]
    ensures { map shape.param_of result.now ≡ rule.params_of (option_map shape.params_of params.now) }
{
    match params {
        None => &[],
        Some(list) => match list {
            ParamsTree::Void(_) => &[],
            ParamsTree::List(_, all) => all,
        },
    }
}

/// The block of the first parameter behind that of the result, if there is one.
pub fn behind_result(block: u32, c: CType) -> Result<u32, Memory>
    ensures means { IfOk result (λ n. n ≡ rule.behind_result block c) }
    ensures full { IfErr result (λ _. 2 ^ 32 ≤ rule.behind_result block c) }
{
    if is_void(c) {
        return Ok(block);
    }
    one_behind(block)
}

fn with_type(env: &mut Env, c: CType) -> Result<(), Memory>
    requires known { IsKnownEnv (env_view env.old) }
    requires inside { IsKnown (env_view env.old).types c }
    ensures means { OnOk result (env_view env.new
        ≡ with_types (env_view env.old) (with_c_type (env_view env.old).types c)) }
    ensures known { OnOk result (IsKnownEnv (env_view env.new)) }
{
    add(&mut env.types, c)?;
    Ok(())
}

fn enter(env: &mut Env) -> Result<(), Memory>
    requires { IsKnownEnv (env_view env.old) }
    ensures means { OnOk result (env_view env.new ≡ entered (env_view env.old)) }
    ensures known { OnOk result (IsKnownEnv (env_view env.new)) }
{
    match env.scopes.enter() {
        Ok(()) => Ok(()),
        Err(_) => Err(Memory),
    }
}

/// What a head says. The scope of its parameters stays open.
#[tactic(auto, unfolding(ep_elaboration::specs::Functions::headed))]
pub fn headed(env: &mut Env, block: u32, head: &HeadTree) -> Result<FunctionType, Halt>
    requires { IsKnownEnv (env_view env.old) }
    ensures means { RefinesIn view.headed (rule.headed (env_view env.old) block (shape.head_of head.now))
        (env_view env.new) result }
    ensures known { OnOk result (IsKnownEnv (env_view env.new)) }
    ensures comes { OnAnswer result (Comes (env_view env.old) (env_view env.new)) }
    ensures outside { OnOk result (Comes (env_view env.old) (left (env_view env.new))) }
{
    let c = specs_declared(env, &head.specs)?;
    let c = starred(c, &head.stars)?;
    let r = given_back(head.line, c)?;
    with_type(env, r)?;
    enter(env)?;
    let first = behind_result(block, r)?;
    let params = params_declared(env, first, params_of(&head.params))?;
    Ok(FunctionType { params, result: r })
}
