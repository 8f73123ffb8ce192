//! What an object begins as: a bit-field, an expression, or a list in braces.

ghost use Rattle.std.specs.Prelude.{OnOk, Some};
ghost use Rattle.ep_ast.specs.Declaration as shape;
ghost use Rattle.ep_ast.specs.Expression as source;
ghost use Rattle.ep_declared.specs.Refinement.{RefinesIn};
ghost use Rattle.ep_declared.specs.View as objects;
ghost use Rattle.ep_elaboration.specs.Declarations as declarations;
ghost use Rattle.ep_elaboration.specs.FieldStatements as fields;
ghost use Rattle.ep_elaboration.specs.Given as rule;
ghost use Rattle.ep_given.specs.Appended.{alone};
ghost use Rattle.ep_given.specs.View as view;
ghost use Rattle.ep_layout.specs.Table.{Grows};
ghost use Rattle.ep_operands.specs.Refinement.{Refines};
ghost use Rattle.ep_scopes.specs.Known.{IsKnownEnv};
ghost use Rattle.ep_scopes.specs.View.{env as env_view};
ghost use Rattle.ep_typer_exprs.specs.View.{field_place};
ghost use Rattle.ep_typing.specs.Results.{at, on_statement};

use crate::lists::Given;
use crate::parts::copy_object;
use crate::values::{expression_given, value_given};
use ep_ast::{ExprTree, Halt, ValueTree};
use ep_declared::Object;
use ep_field_statements::field_given;
use ep_operands::{Operand, at_statement};
use ep_scopes::Env;
use ep_typer_exprs::{FieldPlace, field_of, mention};

fn field_begun(
    env: &Env,
    global: bool,
    line: u32,
    x: &Object,
    field: FieldPlace,
) -> Result<Given, Halt>
    ensures { Refines view.given (alone (at line (fields.field_given global line (field_place field)
        (rule.object_operand (objects.object x.now))))) result }
{
    let mut given = Given::new(env.alloc);
    let copy = copy_object(env.alloc, x)?;
    let to = Operand::Place(copy.place, copy.ty);
    let statement = field_given(env.alloc, global, line, field, to)?;
    given.add(statement, None)?;
    Ok(given)
}

fn value_begun(
    env: &Env,
    global: bool,
    may_call: bool,
    line: u32,
    x: &Object,
    tree: &ExprTree,
) -> Result<Given, Halt>
    ensures { Refines view.given (on_statement line (rule.expression_given (env_view env.now) global may_call line
        (Some (objects.object x.now)) (source.expr tree.now))) result }
{
    let mut given = Given::new(env.alloc);
    let copy = copy_object(env.alloc, x)?;
    match expression_given(env, global, may_call, line, copy, tree, &mut given) {
        Ok(()) => Ok(given),
        Err(halt) => Err(at_statement(line, halt)),
    }
}

// An expression, after the tags and types that it mentions.
fn single_begun(
    env: &mut Env,
    global: bool,
    may_call: bool,
    line: u32,
    x: &Object,
    tree: &ExprTree,
) -> Result<Given, Halt>
    requires { IsKnownEnv (env_view env.old) }
    ensures means { RefinesIn view.given (declarations.first_given (env_view env.old) global may_call line
        (objects.object x.now) (shape.single (source.expr tree.now))) (env_view env.new) result }
    ensures known { OnOk result (IsKnownEnv (env_view env.new)) }
    ensures grown { OnOk result (Grows (env_view env.old).types (env_view env.new).types) }
{
    mention(env, tree)?;
    let found = field_of(env, tree)?;
    match found {
        Some(field) => field_begun(env, global, line, x, field),
        None => value_begun(env, global, may_call, line, x, tree),
    }
}

fn list_begun(
    env: &mut Env,
    global: bool,
    may_call: bool,
    line: u32,
    x: &Object,
    value: &ValueTree,
) -> Result<Given, Halt>
    requires { IsKnownEnv (env_view env.old) }
    ensures means { RefinesIn view.given (on_statement line (rule.value_given (env_view env.old) global may_call line
        (Some (objects.object x.now)) (shape.value_of value.now))) (env_view env.new) result }
    ensures known { OnOk result (IsKnownEnv (env_view env.new)) }
    ensures grown { OnOk result (Grows (env_view env.old).types (env_view env.new).types) }
{
    match value_given(env, global, may_call, line, x, value) {
        Ok(given) => Ok(given),
        Err(halt) => Err(at_statement(line, halt)),
    }
}

/// The first values of an object, whose declarator's name is on the line: it begins as a bit-field, or as a value. A
/// call stands only where one may, as all of an expression.
pub fn first_given(
    env: &mut Env,
    global: bool,
    may_call: bool,
    line: u32,
    x: &Object,
    value: &ValueTree,
) -> Result<Given, Halt>
    requires { IsKnownEnv (env_view env.old) }
    ensures means { RefinesIn view.given (declarations.first_given (env_view env.old) global may_call line
        (objects.object x.now) (shape.value_of value.now)) (env_view env.new) result }
    ensures known { OnOk result (IsKnownEnv (env_view env.new)) }
    ensures grown { OnOk result (Grows (env_view env.old).types (env_view env.new).types) }
{
    match value {
        ValueTree::Expr(tree) => single_begun(env, global, may_call, line, x, tree),
        ValueTree::List(_, _) => list_begun(env, global, may_call, line, x, value),
    }
}
