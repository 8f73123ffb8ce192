//! First values: an expression, or a list in braces.

ghost use Rattle.std.specs.Prelude.{◌≡◌, ◌&&◌, Bool, false, map, not, None, Some, OnOk};
ghost use Rattle.std.specs.Option.{option_map};
ghost use Rattle.ep_ast.specs.Declaration as shape;
ghost use Rattle.ep_ast.specs.Expression as source;
ghost use Rattle.ep_declared.specs.Refinement.{RefinesIn};
ghost use Rattle.ep_declared.specs.View as objects;
ghost use Rattle.ep_elaboration.specs.Given as rule;
ghost use Rattle.ep_elaboration.specs.Given.{both_given};
ghost use Rattle.ep_given.specs.Appended.{all_behind, behind};
ghost use Rattle.ep_given.specs.View as view;
ghost use Rattle.ep_layout.specs.Table.{Grows};
ghost use Rattle.ep_operands.specs.Refinement.{Refines, Stops};
ghost use Rattle.ep_scopes.specs.Known.{IsKnownEnv};
ghost use Rattle.ep_scopes.specs.View.{env as env_view};
ghost use Rattle.ep_typing.specs.Results.{at};

use crate::constants::first_value;
use crate::lists::Given;
use crate::parts::{copy_object, part_at};
use ep_ast::{ExprTree, Halt, RefusalKind, ValueTree};
use ep_declared::Object;
use ep_operands::{Operand, is_aggregate, is_array, number_of, refused};
use ep_scopes::Env;
use ep_typer_effects::{assigned_from, right_side};
use ep_typer_exprs::{mention, typed};
use ep_typing::CType;

// An expression that an object begins as.
#[tactic(auto, unfolding(ep_elaboration::specs::Given::expression_given))]
pub(crate) fn expression_given(
    env: &Env,
    global: bool,
    may_call: bool,
    line: u32,
    x: Object,
    tree: &ExprTree,
    given: &mut Given,
) -> Result<(), Halt>
    ensures { Refines (λ u. view.given given.new) (behind both_given (view.given given.old) (rule.expression_given
        (env_view env.now) global may_call line (Some (objects.object x)) (source.expr tree.now))) result }
{
    let right = right_side(env, may_call, tree)?;
    let value = first_value(env.alloc, &env.types, global, line, &x, &right);
    let to = Operand::Place(x.place, x.ty);
    let statement = assigned_from(env.alloc, &env.types, line, to, right)?;
    let value = value?;
    given.add(statement, value)?;
    Ok(())
}

// An expression that there is no object for.
#[tactic(auto, unfolding(ep_elaboration::specs::Given::expression_given))]
fn expression_refused(env: &Env, line: u32, tree: &ExprTree) -> Halt
    ensures { (global may_call : Bool) → Stops
        (rule.expression_given (env_view env.now) global may_call line None (source.expr tree.now)) result }
{
    if let Err(halt) = typed(env, tree) {
        return halt;
    }
    refused(RefusalKind::TypeMismatch, line)
}

// An expression, after the tags and types that it mentions.
fn single_given(
    env: &mut Env,
    global: bool,
    may_call: bool,
    line: u32,
    x: Option<Object>,
    tree: &ExprTree,
    given: &mut Given,
) -> Result<(), Halt>
    requires { IsKnownEnv (env_view env.old) }
    ensures means { RefinesIn (λ u. view.given given.new) (all_behind both_given (view.given given.old)
        (rule.value_given (env_view env.old) global may_call line (option_map objects.object x)
        (shape.single (source.expr tree.now))))
        (env_view env.new) result }
    ensures known { OnOk result (IsKnownEnv (env_view env.new)) }
    ensures grown { OnOk result (Grows (env_view env.old).types (env_view env.new).types) }
{
    mention(env, tree)?;
    match x {
        Some(object) => expression_given(env, global, may_call, line, object, tree, given),
        None => Err(expression_refused(env, line, tree)),
    }
}

// An object that has parts.
fn with_parts(line: u32, x: Option<Object>) -> Result<Object, Halt>
    ensures { Refines objects.object (at line (rule.with_parts (option_map objects.object x))) result }
{
    match x {
        Some(object) => {
            if is_array(object.ty) | is_aggregate(object.ty) {
                return Ok(object);
            }
            Err(refused(RefusalKind::TypeMismatch, line))
        }
        None => Err(refused(RefusalKind::TypeMismatch, line)),
    }
}

fn has_fields(env: &Env, c: CType) -> bool
    ensures { result ≡ rule.has_fields (env_view env.now) c }
{
    if is_aggregate(c) {
        env.fields.has(number_of(c))
    } else {
        false
    }
}

fn is_number_zero(tree: &ExprTree) -> bool
    ensures { result ≡ rule.is_zero (shape.single (source.expr tree.now)) }
{
    match tree {
        ExprTree::Number(_, literal) => literal.value == 0,
        ExprTree::Assign(_, _, _, _)
        | ExprTree::Conditional(_, _, _, _)
        | ExprTree::Binary(_, _, _, _)
        | ExprTree::Cast(_, _, _)
        | ExprTree::Step(_, _, _)
        | ExprTree::Unary(_, _, _)
        | ExprTree::SizeofExpr(_, _)
        | ExprTree::SizeofType(_, _)
        | ExprTree::Index(_, _, _)
        | ExprTree::Call(_, _, _)
        | ExprTree::Member(_, _, _)
        | ExprTree::Arrow(_, _, _)
        | ExprTree::PostIncrement(_, _)
        | ExprTree::PostDecrement(_, _)
        | ExprTree::Id(_, _) => false,
    }
}

// Whether a value is `0`.
fn is_zero(value: &ValueTree) -> bool
    ensures { result ≡ rule.is_zero (shape.value_of value.now) }
{
    match value {
        ValueTree::Expr(tree) => is_number_zero(tree),
        ValueTree::List(_, _) => false,
    }
}

fn is_zero_alone(values: &[ValueTree]) -> bool
    ensures { result ≡ rule.is_zero_alone (shape.to_values (map shape.value_of values.now)) }
{
    if values.len() == 1 {
        is_zero(&values[0])
    } else {
        false
    }
}

// Whether this is a list other than `{0}` for an aggregate with a bit-field.
fn lists_fields(env: &Env, c: CType, values: &[ValueTree]) -> bool
    ensures { result ≡ (rule.has_fields (env_view env.now) c
        && not (rule.is_zero_alone (shape.to_values (map shape.value_of values.now)))) }
{
    has_fields(env, c) && !is_zero_alone(values)
}

// An object that a list may give these values.
fn with_list(env: &Env, line: u32, x: Option<Object>, values: &[ValueTree]) -> Result<Object, Halt>
    ensures { Refines objects.object (at line (rule.with_list (env_view env.now) (option_map objects.object x)
        (shape.to_values (map shape.value_of values.now)))) result }
{
    let whole = with_parts(line, x)?;
    if lists_fields(env, whole.ty, values) {
        return Err(refused(RefusalKind::BitFieldPlace, line));
    }
    Ok(whole)
}

fn line_of_value(value: &ValueTree) -> u32
    ensures { result ≡ rule.line_of_value (shape.value_of value.now) }
{
    match value {
        ValueTree::Expr(tree) => tree.line(),
        ValueTree::List(line, _) => *line,
    }
}

// A first value comes behind others.
#[cycle(given)]
#[tactic(auto, unfolding(ep_elaboration::specs::Given::value_given))]
fn add_value(
    env: &mut Env,
    global: bool,
    may_call: bool,
    line: u32,
    x: Option<Object>,
    value: &ValueTree,
    given: &mut Given,
) -> Result<(), Halt>
    requires { IsKnownEnv (env_view env.old) }
    ensures means { RefinesIn (λ u. view.given given.new) (all_behind both_given (view.given given.old)
        (rule.value_given (env_view env.old) global may_call line (option_map objects.object x)
        (shape.value_of value.now)))
        (env_view env.new) result }
    ensures known { OnOk result (IsKnownEnv (env_view env.new)) }
    ensures grown { OnOk result (Grows (env_view env.old).types (env_view env.new).types) }
{
    match value {
        ValueTree::Expr(tree) => single_given(env, global, may_call, line, x, tree, given),
        ValueTree::List(_, values) => {
            let list: &[ValueTree] = values;
            let whole = with_list(env, line, x, list)?;
            add_values(env, global, &whole, list, given)
        }
    }
}

// The values of a list, each for a part of the object.
#[cycle(given)]
#[tactic(auto, unfolding(ep_elaboration::specs::Given::all_given))]
fn add_values(
    env: &mut Env,
    global: bool,
    whole: &Object,
    values: &[ValueTree],
    given: &mut Given,
) -> Result<(), Halt>
    requires { IsKnownEnv (env_view env.old) }
    ensures means { RefinesIn (λ u. view.given given.new) (all_behind both_given (view.given given.old)
        (rule.all_given (env_view env.old) global (objects.object whole.now) 0
        (shape.to_values (map shape.value_of values.now))))
        (env_view env.new) result }
    ensures known { OnOk result (IsKnownEnv (env_view env.new)) }
    ensures grown { OnOk result (Grows (env_view env.old).types (env_view env.new).types) }
{
    for (number, value) in values.iter().enumerate() {
        let part = part_at(env.alloc, &env.types, whole, number)?;
        add_value(env, global, false, line_of_value(value), part, value, given)?;
    }
    Ok(())
}

// The first values of an object.
pub(crate) fn value_given(
    env: &mut Env,
    global: bool,
    may_call: bool,
    line: u32,
    x: &Object,
    value: &ValueTree,
) -> Result<Given, Halt>
    requires { IsKnownEnv (env_view env.old) }
    ensures means { RefinesIn view.given (rule.value_given (env_view env.old) global may_call line
        (Some (objects.object x.now)) (shape.value_of value.now)) (env_view env.new) result }
    ensures known { OnOk result (IsKnownEnv (env_view env.new)) }
    ensures grown { OnOk result (Grows (env_view env.old).types (env_view env.new).types) }
{
    let mut given = Given::new(env.alloc);
    let copy = copy_object(env.alloc, x)?;
    add_value(env, global, may_call, line, Some(copy), value, &mut given)?;
    Ok(given)
}
