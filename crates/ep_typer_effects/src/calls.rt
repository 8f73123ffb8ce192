//! Calls with their arguments.

ghost use Rattle.std.specs.Prelude.{◌≡◌, ◌∷◌, [], map, drop, IfOk};
ghost use Rattle.std.specs.Vec.Iter.{into_iter_items};
ghost use Rattle.ep_ast.specs.Expression as source;
ghost use Rattle.ep_core.specs.View.{expr_view};
ghost use Rattle.ep_int.specs.declared.types.IntType.TheVariants.{U8};
ghost use Rattle.ep_typing.specs.Calls as rule;
ghost use Rattle.ep_typing.specs.Operand as operands;
ghost use Rattle.ep_typing.specs.Results.{at};
ghost use Rattle.ep_typing.specs.Typing as typing;
ghost use Rattle.ep_operands.specs.Refinement.{Refines};
ghost use Rattle.ep_stores.specs.View as view;
ghost use Rattle.ep_scopes.specs.View.{env as env_view};

use ep_ast::{ExprTree, Halt, RefusalKind};
use ep_core::tree::Expr;
use ep_int::{IntType, Memory};
use ep_operands::{Callee, Operand, Value, int_type, refused, void_type};
use ep_scopes::Env;
use ep_stores::{Action, Called, Parameter, all_passed, length_at};
use ep_typer_exprs::{callee, typed_all};
use ep_typing::CType;
use std::alloc::Global;
use std::vec::IntoIter;

// A parameter of each of these types.
fn as_parameters(alloc: Global, types: &[CType]) -> Result<Vec<Parameter>, Memory>
    ensures { IfOk result (λ v. map view.parameter v.items ≡ map rule.of_type types.now) }
{
    let mut parameters = Vec::new(alloc);
    for c in types {
        if parameters.push(Parameter::OfType(*c)).is_err() {
            return Err(Memory);
        }
    }
    Ok(parameters)
}

// The parameters of a function, by its number.
fn declared_parameters(env: &Env, number: u32) -> Result<Vec<Parameter>, Memory>
    ensures { IfOk result
        (λ v. map view.parameter v.items ≡ map rule.of_type (rule.signature (env_view env.now) number).params) }
{
    match env.function(number) {
        Some(ty) => as_parameters(env.alloc, &ty.params),
        None => Ok(Vec::new(env.alloc)),
    }
}

fn declared_result(env: &Env, number: u32) -> CType
    ensures { result ≡ (rule.signature (env_view env.now) number).result }
{
    match env.function(number) {
        Some(ty) => ty.result,
        None => void_type(),
    }
}

// The next argument, or null.
fn next_argument(arguments: &mut IntoIter<Expr>) -> Expr
    ensures first { expr_view result ≡ rule.argument (map expr_view (into_iter_items arguments.old)) 0 }
    ensures rest { into_iter_items arguments.new ≡ drop 1 (into_iter_items arguments.old) }
{
    match arguments.next() {
        Some(argument) => argument,
        None => Expr::Null,
    }
}

fn first_of(arguments: Vec<Expr>) -> Expr
    ensures { expr_view result ≡ rule.argument (map expr_view arguments.items) 0 }
{
    let mut rest = arguments.into_iter();
    next_argument(&mut rest)
}

fn first_two(arguments: Vec<Expr>) -> (Expr, Expr)
    ensures first { expr_view result.0 ≡ rule.argument (map expr_view arguments.items) 0 }
    ensures second { expr_view result.1 ≡ rule.argument (map expr_view arguments.items) 1 }
{
    let mut rest = arguments.into_iter();
    let first = next_argument(&mut rest);
    let second = next_argument(&mut rest);
    (first, second)
}

#[tactic(auto, unfolding(ep_typing::specs::Calls::called))]
fn declared_called(env: &Env, line: u32, number: u32, values: Vec<Value>) -> Result<Called, Halt>
    ensures { Refines view.called
        (at line (rule.called (env_view env.now) (operands.function (operands.declared number))
        (map view.value values.items))) result }
{
    let parameters = declared_parameters(env, number)?;
    let arguments = all_passed(env.alloc, line, &parameters, values)?;
    Ok(Called::Function(number, arguments, declared_result(env, number)))
}

#[tactic(auto, unfolding(ep_typing::specs::Calls::called))]
fn input_called(env: &Env, line: u32, t: IntType, values: Vec<Value>) -> Result<Called, Halt>
    ensures { Refines view.called (at line (rule.called (env_view env.now) (operands.function (operands.input t))
        (map view.value values.items))) result }
{
    all_passed(env.alloc, line, &[], values)?;
    Ok(Called::Input(t))
}

#[tactic(auto, unfolding(ep_typing::specs::Calls::called))]
fn output_called(env: &Env, line: u32, t: IntType, values: Vec<Value>) -> Result<Called, Halt>
    ensures { Refines view.called (at line (rule.called (env_view env.now) (operands.function (operands.output t))
        (map view.value values.items))) result }
{
    let parameters = [Parameter::OfType(int_type(t))];
    let arguments = all_passed(env.alloc, line, &parameters, values)?;
    Ok(Called::Action(Action::Output(t, first_of(arguments))))
}

#[tactic(auto, unfolding(ep_typing::specs::Calls::called))]
fn copy_called(env: &Env, line: u32, values: Vec<Value>) -> Result<Called, Halt>
    ensures { Refines view.called (at line (rule.called (env_view env.now) (operands.function operands.copy_bytes)
        (map view.value values.items))) result }
{
    let length = length_at(&values, 2);
    let parameters = [
        Parameter::AnyPointer,
        Parameter::AnyPointer,
        Parameter::Length,
    ];
    let arguments = all_passed(env.alloc, line, &parameters, values)?;
    let both = first_two(arguments);
    Ok(Called::Action(Action::CopyBytes(both.0, both.1, length)))
}

#[tactic(auto, unfolding(ep_typing::specs::Calls::called))]
fn fill_called(env: &Env, line: u32, values: Vec<Value>) -> Result<Called, Halt>
    ensures { Refines view.called (at line (rule.called (env_view env.now) (operands.function operands.fill_bytes)
        (map view.value values.items))) result }
{
    let length = length_at(&values, 2);
    let parameters = [
        Parameter::AnyPointer,
        Parameter::OfType(int_type(IntType::U8)),
        Parameter::Length,
    ];
    let arguments = all_passed(env.alloc, line, &parameters, values)?;
    let both = first_two(arguments);
    Ok(Called::Action(Action::FillBytes(both.0, both.1, length)))
}

#[tactic(auto, unfolding(ep_typing::specs::Calls::called))]
fn read_called(env: &Env, line: u32, values: Vec<Value>) -> Result<Called, Halt>
    ensures { Refines view.called (at line (rule.called (env_view env.now) (operands.function operands.read_bytes)
        (map view.value values.items))) result }
{
    let length = length_at(&values, 1);
    let parameters = [Parameter::AnyPointer, Parameter::Length];
    let arguments = all_passed(env.alloc, line, &parameters, values)?;
    Ok(Called::Action(Action::ReadBytes(first_of(arguments), length)))
}

#[tactic(auto, unfolding(ep_typing::specs::Calls::called))]
fn write_called(env: &Env, line: u32, values: Vec<Value>) -> Result<Called, Halt>
    ensures { Refines view.called (at line (rule.called (env_view env.now) (operands.function operands.write_bytes)
        (map view.value values.items))) result }
{
    let length = length_at(&values, 1);
    let parameters = [Parameter::AnyPointer, Parameter::Length];
    let arguments = all_passed(env.alloc, line, &parameters, values)?;
    Ok(Called::Action(Action::WriteBytes(first_of(arguments), length)))
}

fn function_called(env: &Env, line: u32, callee: Callee, values: Vec<Value>) -> Result<Called, Halt>
    ensures { Refines view.called (at line (rule.called (env_view env.now) (operands.function (view.callee callee))
        (map view.value values.items))) result }
{
    match callee {
        Callee::Declared(number) => declared_called(env, line, number, values),
        Callee::Input(t) => input_called(env, line, t, values),
        Callee::Output(t) => output_called(env, line, t, values),
        Callee::CopyBytes => copy_called(env, line, values),
        Callee::FillBytes => fill_called(env, line, values),
        Callee::ReadBytes => read_called(env, line, values),
        Callee::WriteBytes => write_called(env, line, values),
    }
}

#[tactic(auto, unfolding(ep_typing::specs::Calls::called))]
fn called(env: &Env, line: u32, x: Operand, values: Vec<Value>) -> Result<Called, Halt>
    ensures { Refines view.called
        (at line (rule.called (env_view env.now) (view.operand x) (map view.value values.items))) result }
{
    match x {
        Operand::Place(_, _) => Err(refused(RefusalKind::TypeMismatch, line)),
        Operand::Value(_) => Err(refused(RefusalKind::TypeMismatch, line)),
        Operand::Function(callee) => function_called(env, line, callee, values),
    }
}

/// A call with its function and arguments, where it may stand.
#[tactic(auto, unfolding(ep_typing::specs::Typing::call_typed))]
pub fn call_typed(env: &Env, line: u32, f: &ExprTree, list: &[ExprTree]) -> Result<Called, Halt>
    ensures { Refines view.called (typing.call_typed (env_view env.now) line (source.expr f.now)
        (source.to_exprs (map source.expr list.now))) result }
{
    let x = callee(env, f)?;
    let values = typed_all(env, line, list)?;
    called(env, line, x, values)
}
