//! Declarations of variables.

ghost use Rattle.std.specs.Prelude.{◌≡◌, map, OnOk};
ghost use Rattle.std.specs.Option.{option_map};
ghost use Rattle.ep_ast.specs.Declaration as source;
ghost use Rattle.ep_declared.specs.Refinement.{RefinesIn};
ghost use Rattle.ep_declared.specs.View as objects;
ghost use Rattle.ep_elaboration.specs.Declarations as rule;
ghost use Rattle.ep_given.specs.View.{given};
ghost use Rattle.ep_layout.specs.Table.{Grows};
ghost use Rattle.ep_scopes.specs.Known.{IsKnown, IsKnownEnv};
ghost use Rattle.ep_scopes.specs.View.{env as env_view};
ghost use Rattle.ep_typer_declarations.specs.View as view;

use crate::made::Made;
use ep_ast::{DeclarationTree, Halt, InitTree, ValueTree};
use ep_declared::{Object, object_declared, specs_declared};
use ep_given::{Given, cleared, count_listed, first_given};
use ep_scopes::Env;
use ep_typing::CType;

// The first value of an object, if it has one.
#[tactic(auto, unfolding(ep_elaboration::specs::Declarations::initialised))]
fn initialised(
    env: &mut Env,
    global: bool,
    may_call: bool,
    line: u32,
    x: &Object,
    value: &Option<ValueTree>,
) -> Result<Given, Halt>
    requires { IsKnownEnv (env_view env.old) }
    ensures means { RefinesIn given (rule.initialised (env_view env.old) global may_call line (objects.object x.now)
        (option_map source.value_of value.now)) (env_view env.new) result }
    ensures known { OnOk result (IsKnownEnv (env_view env.new)) }
    ensures grown { OnOk result (Grows (env_view env.old).types (env_view env.new).types) }
{
    match value {
        None => Ok(Given::new(env.alloc)),
        Some(v) => {
            let given = first_given(env, global, may_call, line, x, v)?;
            let given = cleared(env.alloc, &env.types, x, v, given)?;
            Ok(given)
        }
    }
}

// A variable with its first value.
#[tactic(auto, unfolding(ep_elaboration::specs::Declarations::variable_declared))]
fn variable_declared(
    env: &mut Env,
    global: bool,
    may_call: bool,
    c: CType,
    init: &InitTree,
) -> Result<Given, Halt>
    requires known { IsKnownEnv (env_view env.old) }
    requires inside { IsKnown (env_view env.old).types c }
    ensures means { RefinesIn (λ g. rule.lined init.now.declarator.line (given g)) (rule.variable_declared
        (env_view env.old) global may_call c (source.init_of init.now)) (env_view env.new) result }
    ensures known { OnOk result (IsKnownEnv (env_view env.new)) }
    ensures grown { OnOk result (Grows (env_view env.old).types (env_view env.new).types) }
{
    let declarator = &init.declarator;
    let listed = count_listed(&init.value);
    let x = object_declared(env, global, listed, c, declarator)?;
    initialised(env, global, may_call, declarator.line, &x, &init.value)
}

// Variables one after another.
fn variables_declared(
    env: &mut Env,
    global: bool,
    may_call: bool,
    c: CType,
    inits: &[InitTree],
) -> Result<Made, Halt>
    requires known { IsKnownEnv (env_view env.old) }
    requires inside { IsKnown (env_view env.old).types c }
    ensures means { RefinesIn view.made (rule.variables_declared (env_view env.old) global may_call c
        (map source.init_of inits.now)) (env_view env.new) result }
    ensures known { OnOk result (IsKnownEnv (env_view env.new)) }
{
    let mut made = Made::new(env.alloc);
    for init in inits {
        let given = variable_declared(env, global, may_call, c, init)?;
        made.add(init.declarator.line, given)?;
    }
    Ok(made)
}

/// A declaration of variables, at file scope or in a block. A call may stand only where it is all of an initialiser,
/// and only if calls may stand at all.
#[tactic(auto, unfolding(ep_elaboration::specs::Declarations::declaration))]
pub fn declaration(
    env: &mut Env,
    global: bool,
    may_call: bool,
    tree: &DeclarationTree,
) -> Result<Made, Halt>
    requires { IsKnownEnv (env_view env.old) }
    ensures means { RefinesIn view.made (rule.declaration (env_view env.old) global may_call
        (source.declaration_of tree.now)) (env_view env.new) result }
    ensures known { OnOk result (IsKnownEnv (env_view env.new)) }
{
    let c = specs_declared(env, &tree.specs)?;
    variables_declared(env, global, may_call, c, &tree.inits)
}
